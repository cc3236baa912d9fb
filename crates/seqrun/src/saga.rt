//! One saga, taken through a bank and noted in a journal.
ghost use Rattle.std.specs.Prelude.{◌≡◌, ◌⊎◌, ◌↔◌, IsTrue, Any};
ghost use Rattle.terms.specs.Verbs.{verb_number};
ghost use Rattle.seqrun.specs.declared.saga.Stop.TheVariants.{Journal};

use crate::kind::Kind;
use bank::bank::Bank;
use grammar::{Item, Saga};
use journals::fault::JournalFault;
use journals::traits::Journal;
use law::event::{Event, Step};
use participants::answer::Accepted;
use terms::{Entry, Key, Refusal, Request, Verb};

/// Why a saga goes no further.
#[derive(Clone, Copy, PartialEq, Eq, Debug)]
enum Stop {
    Journal(JournalFault),
    Refused(Refusal),
}

impl From<JournalFault> for Stop {
    ghost from_gives = { λ fault stop. stop ≡ Journal fault };

    fn from(fault: JournalFault) -> Stop {
        Stop::Journal(fault)
    }
}

fn step_of(number: u8, request: Request) -> Step
    ensures number { result.number ≡ number }
    ensures stock { (result.participant ≡ 1) ↔ ((request.verb ≡ verb_number Verb.Claim) ⊎ (request.verb ≡ verb_number Verb.Return)) }
    ensures ledger { (result.participant ≡ 2) ↔ (request.verb ≡ verb_number Verb.Move) }
    ensures others { result.participant ≡ 1 ⊎ (result.participant ≡ 2 ⊎ result.participant ≡ 3) }
    ensures request { result.request ≡ request }
{
    Step {
        number,
        participant: u8::from(Kind::of(request.verb)),
        request,
    }
}

/// The step of a number, where the saga's items are steps alone.
fn step_at(saga: &Saga, number: u8) -> Option<Step> {
    let place = number.checked_sub(1)?;
    match *saga.items.get(usize::from(place))? {
        Item::Step(request) => Some(step_of(number, request)),
        _ => None,
    }
}

fn has_try(saga: &Saga) -> bool
    ensures { IsTrue result ↔ Any (λ item. item ≡ Item.Try) saga.now.items.items }
{
    saga.items.iter().any(|item| matches!(item, Item::Try))
}

/// A saga on its way, with the count of its steps that are done.
#[derive(Drop)]
struct Run<'j, 'b, 's, J, B> {
    journal: &'j mut J,
    bank: &'b mut B,
    saga: &'s Saga,
    done: u8,
}

impl<'j, 'b, 's, J: Journal, B: Bank> Run<'j, 'b, 's, J, B> {
    fn note(&mut self, event: Event) -> Result<(), JournalFault> {
        self.journal.append(event.to_record(self.saga.number))
    }

    fn key(&self, step: u8) -> Key
        ensures saga { result.saga ≡ self.now.saga.now.number }
        ensures step { result.step ≡ step }
    {
        Key {
            saga: self.saga.number,
            step,
        }
    }

    /// Performs one step and notes what it came to.
    fn perform(&mut self, step: Step) -> Result<(), Stop> {
        self.note(Event::Intent(step))?;
        let entry = Entry {
            key: self.key(step.number),
            request: step.request,
        };
        match self.bank.perform(step.participant, entry) {
            Ok(Accepted::Done | Accepted::Already) => self.note(Event::Done(step.number))?,
            Err(refusal) => {
                let _ = self.note(Event::Refused(step.number, refusal));
                return Err(Stop::Refused(refusal));
            }
        }
        self.done = step.number;
        Ok(())
    }

    /// Performs the steps in their order.
    fn forward(&mut self) -> Result<(), Stop> {
        let saga = self.saga;
        for item in saga.items.iter() {
            if let Item::Step(request) = *item {
                self.perform(step_of(self.done.saturating_add(1), request))?;
            }
        }
        Ok(())
    }

    // Apart from finish: a shared form would take a direction, a call and an event.
    /// Undoes the steps that are done, the last of them first.
    fn back(&mut self) {
        let _ = self.note(Event::Back(0));
        for number in (1..=self.done).rev() {
            let key = self.key(number);
            if let Some(step) = step_at(self.saga, number) {
                self.bank.undo(step.participant, key);
            }
            let _ = self.note(Event::Undone(number));
        }
    }

    /// Settles the steps that are done, the first of them first.
    fn finish(&mut self) {
        let _ = self.note(Event::Finish);
        for number in 1..=self.done {
            let key = self.key(number);
            if let Some(step) = step_at(self.saga, number) {
                self.bank.settle(step.participant, key);
            }
            let _ = self.note(Event::Settled(number));
        }
    }
}

/// Takes a saga from its begin to its end, forward or back. One with a try is left out.
pub(crate) fn take<J: Journal, B: Bank>(journal: &mut J, bank: &mut B, saga: &Saga) {
    if has_try(saga) {
        return;
    }
    let mut run = Run {
        journal,
        bank,
        saga,
        done: 0,
    };
    let _ = run.note(Event::Begin);
    match run.forward() {
        Ok(()) => run.finish(),
        Err(_) => run.back(),
    }
}
