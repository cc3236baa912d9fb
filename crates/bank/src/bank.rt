//! Participants by index, the first being 1.
ghost use Rattle.std.specs.Prelude.{◌≡◌, ℕ, ◌+◌, ◌≤◌, List};
ghost use Rattle.std.specs.List.{AllByRecursion};
ghost use Rattle.participants.specs.Party.{Party, KeepsCeilings, Orderly, do_answer, do_after, undo_after, settle_after, stands, value_of};
ghost use Rattle.bank.specs.Banks.{count_of, party_at, change_at};

use participants::answer::Answer;
use terms::{Entry, Key};

/// A list of participants, as `parties` says. A call reaches the participant of its index alone; where the bank has none, a
/// request is refused as unfit, nothing stands and no cell has a value.
pub trait Bank {
    ghost parties: { Self → List Party };

    // How many writes its participants have made. `cost` stands at each call that writes, since it relates two states.
    ghost writes: { Self → ℕ };

    // An index and a key are passed apart, here and below: a struct of them would be built only to be taken apart.
    fn perform(&mut self, participant: u8, entry: Entry) -> Answer
        ensures answer { result ≡ do_answer (party_at (parties self.old) participant) entry }
        ensures after { parties self.new ≡ change_at (parties self.old) participant (λ p. do_after p entry) }
        ensures cost { writes self.new ≤ writes self.old + 1 };

    // A bool, as `HashSet::remove` gives, here and in settle: whether the key stood.
    fn undo(&mut self, participant: u8, key: Key) -> bool
        ensures answer { result ≡ stands (party_at (parties self.old) participant) key }
        ensures after { parties self.new ≡ change_at (parties self.old) participant (λ p. undo_after p key) }
        ensures cost { writes self.new ≤ writes self.old + 1 };

    fn settle(&mut self, participant: u8, key: Key) -> bool
        ensures answer { result ≡ stands (party_at (parties self.old) participant) key }
        ensures after { parties self.new ≡ change_at (parties self.old) participant (λ p. settle_after p key) }
        ensures cost { writes self.new ≤ writes self.old + 1 };

    /// How many participants can be named: an index has one byte.
    fn count(&self) -> u8
        ensures { result ≡ count_of (parties self.now) };

    fn value(&self, participant: u8, cell: u64) -> Option<u32>
        ensures { result ≡ value_of (party_at (parties self.now) participant) cell };

    fn stands(&self, participant: u8, key: Key) -> bool
        ensures { result ≡ stands (party_at (parties self.now) participant) key };

    // V + T + G ≤ C at every cell of every participant.
    ghost ceilings: { (x : Self) → AllByRecursion KeepsCeilings (parties x) };

    // At every participant no key stands twice, and at most 64 entries stand.
    ghost orderly: { (x : Self) → AllByRecursion Orderly (parties x) };
}
