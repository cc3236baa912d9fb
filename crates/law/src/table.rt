//! The open sagas, each with a note of the table's owner that the law never looks at, and the highest number begun.
ghost use Rattle.std.specs.Prelude.{◌≡◌, ⊤};

use crate::event::{Outcome, Phase};
use crate::row::Row;
use bounded::Bounded;
use std::alloc::AllocError;

pub mod moves;
pub mod reads;

/// An open saga with its note.
#[derive(Clone, Copy)]
pub(crate) struct Open<V> {
    row: Row,
    note: V,
}

/// At most 8 open sagas, in the order of their numbers, in fixed memory.
pub struct Table<V> {
    top: u32,
    rows: Bounded<Open<V>, 8>,
}

// By hand: a derive asks V: Clone, and the list copies its items.
impl<V: Copy> Clone for Table<V> {
    ghost is_clone = { λ s r. r ≡ s };

    ghost is_infallible = { λ _. ⊤ };

    fn clone(&self) -> Result<Table<V>, AllocError> {
        Ok(*self)
    }
}

impl<V: Copy> Copy for Table<V> {}

/// What is read of an open saga: where it stands, the last step issued, how many marks it has, what became of its last
/// answered step, and its note.
#[derive(Clone, Copy)]
pub struct View<V> {
    pub phase: Phase,
    pub last: u8,
    pub marks: usize,
    pub outcome: Outcome,
    pub note: V,
}
