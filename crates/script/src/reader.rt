//! A text while it is read.
use std::alloc::Global;
use tokens::text::Cursor;

/// A text while it is read, and where its lists are kept.
#[derive(Drop)]
pub(crate) struct Reader<'a> {
    pub heap: Global,
    pub cursor: Cursor<'a>,
}
