//! The calls that move a saga.
ghost use Rattle.std.specs.Prelude.{◌≡◌, ℕ, ◌+◌, ◌≤◌, Ok, Err, OnOk, is_some, true};
ghost use Rattle.runner.specs.Worlds.{world, written, OneWrite};
ghost use Rattle.runner.specs.Calls.{end_by, opened, issued, stepped, marked, joined, backed, finished, cancelled, advanced, answered};

use crate::declined::Declined;
use crate::fault::RunnerFault;
use crate::progress::Progress;
use crate::runner::Runner;
use crate::runner::writes::{ask, told};
use crate::ticket::{Numbers, Ticket};
use crate::waiting::Waiting;
use bank::bank::Bank;
use journals::traits::Journal;
use law::event::{Aim, Event, Outcome, Phase, Step};
use terms::Request;

// `after` and `cost` stand in each contract: they relate two states of a runner, which no type or invariant can.
impl<J: Journal, B: Bank> Runner<J, B> {
    /// Begins a saga. Checks 30, 20, 33, 34, 35.
    pub fn begin(&mut self, saga: u32) -> Result<Ticket, RunnerFault>
        ensures after { (result, world J.Journal B.Bank self.new) ≡ opened saga (world J.Journal B.Bank self.old) }
        ensures cost { OneWrite J.Journal B.Bank self.old self.new }
    {
        let Some(table) = &self.table else {
            return Err(RunnerFault::Unread);
        };
        if saga == 0 || saga > 1_000_000 {
            return Err(RunnerFault::SagaNumber);
        }
        if saga <= table.highest_begun() {
            return Err(RunnerFault::NumberNotAbove);
        }
        if table.open_count() >= 8 {
            return Err(RunnerFault::TooManyOpen);
        }
        if self.lacks(2) {
            return Err(RunnerFault::NoRoom);
        }
        self.write(saga, Event::Begin)?;
        Ok(Ticket {
            numbers: Numbers {
                saga,
                restart: self.restarts,
            },
        })
    }

    /// Issues the next step. Checks 30, 32, 36, 37, 21, 35.
    pub fn step(
        &mut self,
        ticket: Ticket,
        participant: u8,
        request: Request,
    ) -> Result<Waiting, (Ticket, RunnerFault)>
        ensures after { (result, world J.Journal B.Bank self.new) ≡ stepped ticket participant request (world J.Journal B.Bank self.old) }
        ensures cost { OneWrite J.Journal B.Bank self.old self.new }
    {
        match self.issue(ticket.numbers, participant, request) {
            Ok(()) => Ok(ticket.wait()),
            Err(fault) => Err((ticket, fault)),
        }
    }

    fn issue(
        &mut self,
        numbers: Numbers,
        participant: u8,
        request: Request,
    ) -> Result<(), RunnerFault>
        ensures after { (result, world J.Journal B.Bank self.new) ≡ issued numbers participant request (world J.Journal B.Bank self.old) }
        ensures cost { OneWrite J.Journal B.Bank self.old self.new }
    {
        let seen = self.running(numbers)?;
        if seen.last >= 32 {
            return Err(RunnerFault::LimitReached);
        }
        if participant == 0 || participant > self.bank.count() {
            return Err(RunnerFault::NoParticipant);
        }
        if self.lacks(3) {
            return Err(RunnerFault::NoRoom);
        }
        let step = Step {
            number: seen.last + 1,
            participant,
            request,
        };
        self.write(numbers.saga, Event::Intent(step))
    }

    /// Gives the ticket back with what became of the step. Checks 30, 32, 31; the first two spend the slip.
    pub fn answer(&self, slip: Waiting) -> Result<(Ticket, Outcome), Declined<Waiting>>
        ensures { result ≡ answered slip (world J.Journal B.Bank self.now) }
    {
        let seen = match self.open(slip.numbers) {
            Ok(seen) => seen,
            Err(fault) => {
                slip.spend();
                return Err(Declined::Spent(fault));
            }
        };
        match seen.phase {
            Phase::Pending(Aim::Stepping, _) => Err(Declined::Returned(
                slip,
                RunnerFault::StillStepping,
            )),
            _ => Ok((slip.ready(), seen.outcome)),
        }
    }

    /// Sets a mark to go back to. Checks 30, 32, 36, 37, 35.
    pub fn mark(&mut self, ticket: &Ticket) -> Result<(), RunnerFault>
        ensures after { (result, world J.Journal B.Bank self.new) ≡ marked ticket.now (world J.Journal B.Bank self.old) }
        ensures cost { OneWrite J.Journal B.Bank self.old self.new }
    {
        let seen = self.running(ticket.numbers)?;
        if seen.marks >= 8 {
            return Err(RunnerFault::LimitReached);
        }
        if self.lacks(1) {
            return Err(RunnerFault::NoRoom);
        }
        self.write(ticket.numbers.saga, Event::Mark)
    }

    /// Takes the innermost mark away. Checks 30, 32, 36, 38, 35.
    pub fn join(&mut self, ticket: &Ticket) -> Result<(), RunnerFault>
        ensures after { (result, world J.Journal B.Bank self.new) ≡ joined ticket.now (world J.Journal B.Bank self.old) }
        ensures cost { OneWrite J.Journal B.Bank self.old self.new }
    {
        let seen = self.running(ticket.numbers)?;
        if seen.marks == 0 {
            return Err(RunnerFault::WrongMarks);
        }
        if self.lacks(1) {
            return Err(RunnerFault::NoRoom);
        }
        self.write(ticket.numbers.saga, Event::Join)
    }

    /// Goes back to the mark of a depth, the outermost being 1. Checks 30, 32, 36, 38, 35.
    pub fn back(&mut self, ticket: &Ticket, depth: u8) -> Result<(), RunnerFault>
        ensures after { (result, world J.Journal B.Bank self.new) ≡ backed ticket.now depth (world J.Journal B.Bank self.old) }
        ensures cost { OneWrite J.Journal B.Bank self.old self.new }
    {
        let seen = self.running(ticket.numbers)?;
        if depth == 0 || seen.marks < depth as usize {
            return Err(RunnerFault::WrongMarks);
        }
        if self.lacks(1) {
            return Err(RunnerFault::NoRoom);
        }
        self.write(ticket.numbers.saga, Event::Back(depth))
    }

    /// Ends the saga: its standing steps are to be settled. Checks 30, 32, 36, 38; the first two spend the ticket.
    pub fn finish(&mut self, ticket: Ticket) -> Result<(), Declined<Ticket>>
        ensures after { (result, world J.Journal B.Bank self.new) ≡ finished ticket (world J.Journal B.Bank self.old) }
        ensures cost { OneWrite J.Journal B.Bank self.old self.new }
    {
        let seen = match self.open(ticket.numbers) {
            Ok(seen) => seen,
            Err(fault) => return Err(ticket.spent(fault)),
        };
        let Phase::Running = seen.phase else {
            return Err(Declined::Returned(ticket, RunnerFault::WrongPhase));
        };
        if seen.marks != 0 {
            return Err(Declined::Returned(ticket, RunnerFault::WrongMarks));
        }
        self.end(ticket, Event::Finish)
    }

    // Begins as finish does: a shared beginning would have to hand the ticket back beside the view.
    /// Cancels the saga: its standing steps are to be undone. Checks 30, 32, 36; the first two spend the ticket.
    pub fn cancel(&mut self, ticket: Ticket) -> Result<(), Declined<Ticket>>
        ensures after { (result, world J.Journal B.Bank self.new) ≡ cancelled ticket (world J.Journal B.Bank self.old) }
        ensures cost { OneWrite J.Journal B.Bank self.old self.new }
    {
        let seen = match self.open(ticket.numbers) {
            Ok(seen) => seen,
            Err(fault) => return Err(ticket.spent(fault)),
        };
        let Phase::Running = seen.phase else {
            return Err(Declined::Returned(ticket, RunnerFault::WrongPhase));
        };
        self.end(ticket, Event::Back(0))
    }

    /// Writes the record that ends a saga, and spends its ticket.
    fn end(&mut self, ticket: Ticket, event: Event) -> Result<(), Declined<Ticket>>
        requires read { is_some self.old.table ≡ true }
        ensures after { (result, world J.Journal B.Bank self.new) ≡ end_by ticket (written ticket.numbers.saga event (world J.Journal B.Bank self.old)) }
        ensures cost { OneWrite J.Journal B.Bank self.old self.new }
    {
        match self.write(ticket.numbers.saga, event) {
            Ok(()) => {
                ticket.spend();
                Ok(())
            }
            Err(fault) => Err(Declined::Returned(ticket, fault)),
        }
    }

    /// Makes the participant call that the law has next, or records what it came to. Checks 30, 32, 36.
    pub fn advance(&mut self, saga: u32) -> Result<Progress, RunnerFault>
        ensures after { (result, world J.Journal B.Bank self.new) ≡ advanced saga (world J.Journal B.Bank self.old) }
        ensures cost { OneWrite J.Journal B.Bank self.old self.new }
    {
        let seen = self.saga(saga)?;
        match (seen.phase, seen.note) {
            (Phase::Pending(aim, step), None) => {
                let outcome = ask(&mut self.bank, saga, aim, step);
                self.remember(saga, Some(outcome));
                Ok(Progress::Called)
            }
            (Phase::Pending(aim, step), Some(outcome)) => {
                self.write(saga, told(aim, step, outcome))?;
                self.remember(saga, None);
                Ok(Progress::Recorded)
            }
            _ => Err(RunnerFault::WrongPhase),
        }
    }
}
