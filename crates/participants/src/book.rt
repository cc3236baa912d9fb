//! The table behind every participant: verbs, cells and standing entries, in fixed memory.
ghost use Rattle.std.specs.Prelude.{◌≡◌, true};
ghost use Rattle.bounded.specs.Held.{held};
ghost use Rattle.participants.specs.Party.{keys_once, within_ceilings};

use crate::cell::Cell;
use bounded::Bounded;
use terms::Entry;

mod judge;
pub mod methods;

/// The most entries that may stand.
pub const ENTRIES: usize = 64;

/// A participant of up to two verbs and `C` cells. Whatever calls it has taken, no key stands twice, and every value would keep
/// within its ceiling however the standing entries end.
// No Model: the laws of a participant read these ghost fields off the value, which a model would hide.
#[derive(Drop)]
pub struct Book<const C: usize> {
    // Numbers, as a request has them.
    verbs: Bounded<u8, 2>,
    cells: Bounded<Cell, C>,
    entries: Bounded<Entry, ENTRIES>,
    ghost once: { keys_once (held entries) ≡ true },
    ghost sound: { within_ceilings (held cells) (held entries) ≡ true },
}
