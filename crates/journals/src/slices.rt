//! Records in a slice are a journal to read.
use crate::traits::JournalRead;
use record::Record;

impl<'a> JournalRead for &'a [Record] {
    ghost records = { λ s. s.now };

    fn count(&self) -> usize {
        self.len()
    }

    fn entry(&self, i: usize) -> Option<Record> {
        self.get(i).copied()
    }
}
