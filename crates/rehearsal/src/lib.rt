//! Any calls with any cuts, and what holds after them.
#![tactic(auto)]

ghost use Rattle.std.specs.Prelude.{◌≡◌, ◌+◌, ◌≤◌, length, fold};
ghost use Rattle.runner.specs.Worlds.{world};
ghost use Rattle.runner.specs.Calls.{new_world};
ghost use Rattle.runner.specs.Acts.{act};
ghost use Rattle.rehearsal.specs.Keeps.{Start, Kept, Reads};

use bank::bank::Bank;
use journals::traits::Journal;
use runner::moves::Move;
use runner::play::play;
use runner::runner::Runner;

/// A new runner on this journal and this bank, then the moves one after another.
pub fn rehearse<J: Journal, B: Bank>(journal: J, bank: B, moves: &[Move]) -> Runner<J, B>
    ensures after { world J.Journal B.Bank result ≡ fold act (new_world J.Journal B.Bank journal bank) moves.now }
    ensures kept { Start (new_world J.Journal B.Bank journal bank) → Kept (new_world J.Journal B.Bank journal bank) moves.now }
    ensures reads { Reads (new_world J.Journal B.Bank journal bank) moves.now }
    ensures cost { (J.Journal.writes result.journal + B.Bank.writes result.bank ≤ J.Journal.writes journal + B.Bank.writes bank + length moves.now) × (J.Journal.lender result.journal ≡ J.Journal.lender journal) }
{
    play(journal, bank, moves)
}
