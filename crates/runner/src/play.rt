//! Any list of calls on a new runner, each made, or cut before its write, or cut after it.
//!
//! A call names its ticket by two numbers. Nowhere else is a ticket made from numbers, or let go unspent.
ghost use Rattle.std.specs.Prelude.{◌≡◌, ◌+◌, ◌≤◌, length, fold};
ghost use Rattle.runner.specs.Worlds.{world, OneWrite};
ghost use Rattle.runner.specs.Calls.{new_world};
ghost use Rattle.runner.specs.Acts.{called, lost, act};

use crate::declined::Declined;
use crate::moves::{Call, Move, Reach};
use crate::runner::Runner;
use crate::ticket::Ticket;
use crate::waiting::Waiting;
use bank::bank::Bank;
use journals::traits::Journal;

/// A ticket or slip in what a call answers is taken apart.
trait Forget {
    fn forget(self);
}

impl Forget for Ticket {
    fn forget(self) {
        self.spend();
    }
}

impl Forget for Waiting {
    fn forget(self) {
        self.spend();
    }
}

impl<T: Forget> Forget for Declined<T> {
    fn forget(self) {
        if let Declined::Returned(held, _) = self {
            held.forget();
        }
    }
}

fn call<J: Journal, B: Bank>(runner: &mut Runner<J, B>, call: Call)
    ensures after { world J.Journal B.Bank runner.new ≡ called (world J.Journal B.Bank runner.old) call }
    ensures cost { OneWrite J.Journal B.Bank runner.old runner.new }
{
    // A match and no closures: a call is data, so that the theorem can speak of any list of them.
    match call {
        Call::Restart => {
            let _ = runner.restart();
        }
        Call::Begin(saga) => {
            if let Ok(ticket) = runner.begin(saga) {
                ticket.spend();
            }
        }
        Call::Step(numbers, participant, request) => {
            match runner.step(Ticket { numbers }, participant, request) {
                Ok(slip) => slip.spend(),
                Err((ticket, _)) => ticket.spend(),
            }
        }
        Call::Mark(numbers) => {
            let ticket = Ticket { numbers };
            let _ = runner.mark(&ticket);
            ticket.spend();
        }
        Call::Join(numbers) => {
            let ticket = Ticket { numbers };
            let _ = runner.join(&ticket);
            ticket.spend();
        }
        Call::Back(numbers, depth) => {
            let ticket = Ticket { numbers };
            let _ = runner.back(&ticket, depth);
            ticket.spend();
        }
        Call::Finish(numbers) => {
            if let Err(declined) = runner.finish(Ticket { numbers }) {
                declined.forget();
            }
        }
        Call::Cancel(numbers) => {
            if let Err(declined) = runner.cancel(Ticket { numbers }) {
                declined.forget();
            }
        }
        Call::Advance(saga) => {
            let _ = runner.advance(saga);
        }
        Call::Answer(numbers) => match runner.answer(Waiting { numbers }) {
            Ok((ticket, _)) => ticket.spend(),
            Err(declined) => declined.forget(),
        },
    }
}

/// The runner is lost with its tickets, and a new one is made on what is left.
fn cut<J: Journal, B: Bank>(runner: Runner<J, B>) -> Runner<J, B>
    ensures after { world J.Journal B.Bank result ≡ lost (world J.Journal B.Bank runner) }
    ensures cost { (J.Journal.writes result.journal + B.Bank.writes result.bank ≡ J.Journal.writes runner.journal + B.Bank.writes runner.bank) × (J.Journal.lender result.journal ≡ J.Journal.lender runner.journal) }
{
    let (journal, bank) = runner.into_parts();
    Runner::new(journal, bank)
}

fn perform<J: Journal, B: Bank>(mut runner: Runner<J, B>, step: Move) -> Runner<J, B>
    ensures after { world J.Journal B.Bank result ≡ act (world J.Journal B.Bank runner) step }
    ensures cost { OneWrite J.Journal B.Bank runner result }
{
    match step.reach {
        Reach::Made => {
            call(&mut runner, step.call);
            runner
        }
        Reach::CutBefore => cut(runner),
        Reach::CutAfter => {
            call(&mut runner, step.call);
            cut(runner)
        }
    }
}

/// A new runner on this journal and this bank, then the moves one after another.
pub fn play<J: Journal, B: Bank>(journal: J, bank: B, moves: &[Move]) -> Runner<J, B>
    ensures after { world J.Journal B.Bank result ≡ fold act (new_world J.Journal B.Bank journal bank) moves.now }
    ensures cost { (J.Journal.writes result.journal + B.Bank.writes result.bank ≤ J.Journal.writes journal + B.Bank.writes bank + length moves.now) × (J.Journal.lender result.journal ≡ J.Journal.lender journal) }
{
    let mut runner = Runner::new(journal, bank);
    for m in moves {
        runner = perform(runner, *m);
    }
    runner
}
