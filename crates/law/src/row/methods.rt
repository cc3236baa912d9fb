//! What each record does to its saga.
ghost use Rattle.std.specs.Prelude.{◌≡◌, ℕ, ◌+◌, ◌-◌, ◌<◌, ◌≤◌, Bool, length, is_ok, ◌==◌};
ghost use Rattle.bounded.specs.Held.{held};
ghost use Rattle.law.specs.Law.{begun, moved, retreat, finishing, target, owes, owes_more, is_open};
ghost use Rattle.law.specs.Means.{saga_of};
ghost use Rattle.law.specs.Views.{view_of};

use crate::event::{Aim, Event, Phase, Step, Unlawful};
use crate::row::Row;
use crate::table::View;
use bounded::Bounded;

/// The step to undo next on the way back to a target, if any.
fn retreating(standing: &[Step], goal: u8, depth: u8) -> Phase
    ensures { result ≡ retreat goal depth standing.now }
{
    match standing.last() {
        Some(step) if step.number > goal => Phase::Pending(Aim::Retreating(goal, depth), *step),
        _ if depth == 0 => Phase::Closed,
        _ => Phase::Running,
    }
}

/// The step to settle next, if any.
fn settling(standing: &[Step]) -> Phase
    ensures { result ≡ finishing standing.now }
{
    match standing.first() {
        Some(step) => Phase::Pending(Aim::Finishing, *step),
        None => Phase::Closed,
    }
}

/// The last step issued when the mark of a depth was set; 0 for depth 0.
fn mark_of(marks: &[u8], depth: u8) -> u8
    ensures { result ≡ target marks.now depth }
{
    match depth {
        0 => 0,
        _ => marks.get(depth as usize - 1).copied().unwrap_or(0),
    }
}

/// What a saga with a pending step owes besides its standing steps.
fn owes_more(aim: Aim) -> usize
    ensures value { result ≡ owes_more aim }
    ensures few { result ≤ 3 }
{
    match aim {
        Aim::Stepping => 3,
        Aim::Retreating(_, 0) => 0,
        Aim::Retreating(_, _) => 1,
        Aim::Finishing => 0,
    }
}

impl Row {
    pub(crate) fn begin(saga: u32) -> Row
        ensures { saga_of result ≡ begun saga }
    {
        Row {
            saga,
            phase: Phase::Running,
            last: 0,
            standing: Bounded::new(Step::default()),
            marks: Bounded::new(0),
            outcome: Ok(()),
        }
    }

    pub(crate) fn is_of(&self, saga: u32) -> bool
        ensures { result ≡ ((saga_of self.now).number == saga) }
    {
        self.saga == saga
    }

    pub(crate) fn is_open(&self) -> bool
        ensures { result ≡ is_open (saga_of self.now).phase }
    {
        !matches!(self.phase, Phase::Closed)
    }

    pub(crate) fn seen<V: Copy>(&self, note: V) -> View<V>
        ensures { result ≡ view_of (saga_of self.now, note) }
    {
        View {
            phase: self.phase,
            last: self.last,
            marks: self.marks.len(),
            outcome: self.outcome,
            note,
        }
    }

    /// The records that the saga still owes.
    pub(crate) fn owes(&self) -> usize
        ensures value { result ≡ owes (saga_of self.now) }
        ensures few { result ≤ 35 }
    {
        let standing = self.standing.len();
        match self.phase {
            Phase::Running => standing + 1,
            Phase::Pending(aim, _) => standing + owes_more(aim),
            Phase::Closed => 0,
        }
    }

    /// What the event makes of the saga; one that is not lawful changes nothing.
    pub(crate) fn apply(&mut self, event: Event, participants: u8) -> Result<(), Unlawful>
        ensures { (is_ok result, saga_of self.new) ≡ moved participants (saga_of self.old) event }
    {
        match (self.phase, event) {
            (Phase::Running, Event::Intent(step))
                if step.number == self.last + 1
                    && step.number <= 32
                    && 1 <= step.participant
                    && step.participant <= participants => {
                self.phase = Phase::Pending(Aim::Stepping, step);
                self.last = step.number;
            }
            (Phase::Pending(Aim::Stepping, step), Event::Done(number)) if number == step.number => {
                self.phase = Phase::Running;
                let _ = self.standing.push(step);
                self.outcome = Ok(());
            }
            (Phase::Pending(Aim::Stepping, step), Event::Refused(number, refusal))
                if number == step.number => {
                self.phase = Phase::Running;
                self.outcome = Err(refusal);
            }
            (Phase::Running, Event::Mark) if self.marks.len() < 8 => {
                let _ = self.marks.push(self.last);
            }
            (Phase::Running, Event::Join) if self.marks.len() > 0 => {
                let _ = self.marks.pop();
            }
            (Phase::Running, Event::Back(depth)) if depth as usize <= self.marks.len() => {
                let goal = mark_of(self.marks.as_slice(), depth);
                self.phase = retreating(self.standing.as_slice(), goal, depth);
                self.marks.truncate(depth as usize);
            }
            (Phase::Pending(Aim::Retreating(goal, depth), step), Event::Undone(number))
                if number == step.number => {
                let _ = self.standing.pop();
                self.phase = retreating(self.standing.as_slice(), goal, depth);
            }
            (Phase::Running, Event::Finish) if self.marks.len() == 0 => {
                self.phase = settling(self.standing.as_slice());
            }
            (Phase::Pending(Aim::Finishing, step), Event::Settled(number))
                if number == step.number => {
                let _ = self.standing.remove(0);
                self.phase = settling(self.standing.as_slice());
            }
            _ => return Err(Unlawful),
        }
        Ok(())
    }
}
