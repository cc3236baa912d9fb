//! The two kinds of write that a runner makes.
ghost use Rattle.std.specs.Prelude.{◌≡◌, ℕ, ◌+◌, ◌≤◌, is_some, true};
ghost use Rattle.runner.specs.Worlds.{world, written, with_memory, OneWrite};
ghost use Rattle.runner.specs.Calls.{asked_answer, asked_after, event_for, outcome_of};

use crate::fault::{RunnerFault, Unwritten};
use crate::memory::Memory;
use crate::runner::Runner;
use bank::bank::Bank;
use journals::traits::Journal;
use law::event::{Aim, Event, Outcome, Step};
use participants::answer::Answer;
use terms::{Entry, Key};

/// A step that stood already is done.
fn outcome(answer: Answer) -> Outcome
    ensures { result ≡ outcome_of answer }
{
    answer.map(|_| ())
}

/// The participant call that the law has next.
pub(crate) fn ask<B: Bank>(bank: &mut B, saga: u32, aim: Aim, step: Step) -> Outcome
    ensures answer { result ≡ asked_answer aim (B.Bank.parties bank.old) saga step }
    ensures after { B.Bank.parties bank.new ≡ asked_after aim (B.Bank.parties bank.old) saga step }
    ensures cost { B.Bank.writes bank.new ≤ B.Bank.writes bank.old + 1 }
{
    let key = Key {
        saga,
        step: step.number,
    };
    // A match and no closure: the aim is read from the journal.
    match aim {
        Aim::Stepping => outcome(bank.perform(
            step.participant,
            Entry {
                key,
                request: step.request,
            },
        )),
        Aim::Retreating(_, _) => {
            let _ = bank.undo(step.participant, key);
            Ok(())
        }
        Aim::Finishing => {
            let _ = bank.settle(step.participant, key);
            Ok(())
        }
    }
}

/// The record that tells of it.
pub(crate) fn told(aim: Aim, step: Step, outcome: Outcome) -> Event
    ensures { result ≡ event_for aim step outcome }
{
    match (aim, outcome) {
        (Aim::Stepping, Ok(())) => Event::Done(step.number),
        (Aim::Stepping, Err(refusal)) => Event::Refused(step.number, refusal),
        (Aim::Retreating(_, _), _) => Event::Undone(step.number),
        (Aim::Finishing, _) => Event::Settled(step.number),
    }
}

impl<J: Journal, B: Bank> Runner<J, B> {
    /// Appends a record and applies it to the table: no other function appends.
    pub(crate) fn write(&mut self, saga: u32, event: Event) -> Result<(), RunnerFault>
        requires read { is_some self.old.table ≡ true }
        ensures after { (result, world J.Journal B.Bank self.new) ≡ written saga event (world J.Journal B.Bank self.old) }
        ensures cost { OneWrite J.Journal B.Bank self.old self.new }
    {
        self.journal
            .append(event.to_record(saga))
            .map_err(|below| Unwritten { saga, below })?;
        if let Some(table) = &mut self.table {
            let _ = table.apply(saga, Ok(event), self.bank.count(), None);
        }
        Ok(())
    }

    /// Remembers what the pending step came to, or forgets it.
    pub(crate) fn remember(&mut self, saga: u32, memory: Memory)
        ensures after { world J.Journal B.Bank self.new ≡ with_memory saga memory (world J.Journal B.Bank self.old) }
        ensures journal { self.new.journal ≡ self.old.journal }
        ensures bank { self.new.bank ≡ self.old.bank }
    {
        if let Some(table) = &mut self.table {
            table.note(saga, memory);
        }
    }
}
