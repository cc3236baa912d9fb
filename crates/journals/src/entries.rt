//! The records of a journal, one after the other.
ghost use Rattle.std.specs.Iterator.{YieldsFirst, item_count};
ghost use Rattle.journals.specs.Entries.{entries_left};

use crate::traits::JournalRead;
use record::Record;
use std::ops::Range;

/// The records of a journal that are still to come.
#[derive(Drop)]
pub struct Entries<'a, J> {
    pub(crate) journal: &'a J,
    pub(crate) places: Range<usize>,
}

impl<'a, J: JournalRead> Iterator for Entries<'a, J> {
    type Item = Record;

    ghost next_gives = { YieldsFirst (entries_left J.JournalRead.records) };

    ghost remaining = { item_count (entries_left J.JournalRead.records) };

    fn next(&mut self) -> Option<Record> {
        let i = self.places.next()?;
        self.journal.entry(i)
    }
}
