//! What every participant promises: each call is an equality on what it means.
ghost use Rattle.std.specs.Prelude.{◌≡◌, ℕ, ◌+◌, ◌≤◌};
ghost use Rattle.participants.specs.Party.{Party, KeepsCeilings, Orderly, do_answer, do_after, undo_after, settle_after, stands, value_of};

use crate::answer::Answer;
use terms::{Entry, Key};

/// Verbs, cells and standing entries, as `means` says. It refuses for no other cause than those of `do_answer`.
pub trait Participant {
    ghost means: { Self → Party };

    // How many writes it has made: each of perform, undo and settle makes at most one. `cost` stands at each of them, since it
    // relates two states.
    ghost writes: { Self → ℕ };

    /// Lets an entry in, or says why not. An entry that stands already may be asked for again.
    fn perform(&mut self, entry: Entry) -> Answer
        ensures answer { result ≡ do_answer (means self.old) entry }
        ensures after { means self.new ≡ do_after (means self.old) entry }
        ensures cost { writes self.new ≤ writes self.old + 1 };

    /// Takes a standing entry off and adds its takes to the values; false where the key does not stand.
    // A bool, as `HashSet::remove` gives, here and in settle: whether the key stood.
    fn undo(&mut self, key: Key) -> bool
        ensures answer { result ≡ stands (means self.old) key }
        ensures after { means self.new ≡ undo_after (means self.old) key }
        ensures cost { writes self.new ≤ writes self.old + 1 };

    /// Takes a standing entry off and adds its gives to the values; false where the key does not stand.
    fn settle(&mut self, key: Key) -> bool
        ensures answer { result ≡ stands (means self.old) key }
        ensures after { means self.new ≡ settle_after (means self.old) key }
        ensures cost { writes self.new ≤ writes self.old + 1 };

    /// The value of a cell, if it has it.
    fn value(&self, cell: u64) -> Option<u32>
        ensures { result ≡ value_of (means self.now) cell };

    /// Whether the key stands.
    fn stands(&self, key: Key) -> bool
        ensures { result ≡ stands (means self.now) key };

    // V + T + G ≤ C at every cell: owed by every implementation.
    ghost ceilings: { (x : Self) → KeepsCeilings (means x) };

    // No key stands twice, and at most 64 entries stand.
    ghost orderly: { (x : Self) → Orderly (means x) };
}
