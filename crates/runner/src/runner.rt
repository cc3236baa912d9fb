//! The runner: a journal, a bank, and the table of the open sagas.
use crate::memory::Memory;
use law::table::Table;

pub mod calls;
mod checks;
pub mod reads;
pub mod writes;

/// The table is there once the journal has been read; `restarts` counts restarts, and wraps.
pub struct Runner<J, B> {
    journal: J,
    bank: B,
    table: Option<Table<Memory>>,
    restarts: u64,
}
