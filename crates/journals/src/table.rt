//! A journal that is a table of its own: the simulator's.
ghost use Rattle.std.specs.Prelude.{◌≡◌, [], length};
ghost use Rattle.bounded.specs.Held.{held};

use crate::fault::JournalFault;
use crate::traits::{Journal, JournalRead};
use bounded::Bounded;
use record::Record;

/// How many places a table has.
const PLACES: usize = 256;

/// A journal of 256 places.
#[derive(Drop)]
pub struct TableJournal {
    // Fixed memory: a journal has no heap.
    list: Bounded<Record, PLACES>,
}

impl TableJournal {
    /// A journal without records.
    pub fn new() -> TableJournal
        ensures { held result.list ≡ [] }
    {
        TableJournal {
            list: Bounded::new(Record::default()),
        }
    }
}

impl JournalRead for TableJournal {
    ghost records = { λ t. held t.list };

    fn count(&self) -> usize {
        self.list.len()
    }

    fn entry(&self, i: usize) -> Option<Record> {
        self.list.get(i)
    }
}

impl Journal for TableJournal {
    ghost capacity = { λ _. 256 };

    ghost writes = { λ t. length (held t.list) };

    ghost lender = { λ _. 0 };

    fn capacity(&self) -> usize {
        PLACES
    }

    fn append(&mut self, r: Record) -> Result<(), JournalFault> {
        let place = self.list.len();
        self.list.push(r).map_err(|_| JournalFault::Full { place })
    }
}
