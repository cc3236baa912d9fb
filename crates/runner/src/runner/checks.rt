//! The checks that the calls begin with.
ghost use Rattle.std.specs.Prelude.{◌≡◌, ℕ, ◌+◌, ◌-◌, ◌≤◌, Ok, Err, is_some, true, OnOk, length};
ghost use Rattle.runner.specs.Worlds.{world, lacks, on_saga, on_open, on_running};

use crate::fault::RunnerFault;
use crate::memory::Memory;
use crate::runner::Runner;
use crate::ticket::Numbers;
use bank::bank::Bank;
use journals::traits::Journal;
use law::event::Phase;
use law::table::View;

// `read` follows from `view`, by a case for each check; it is said apart so that no caller goes through them.
impl<J: Journal, B: Bank> Runner<J, B> {
    /// What is to be known of an open saga. Checks 30, 32.
    pub(crate) fn saga(&self, saga: u32) -> Result<View<Memory>, RunnerFault>
        ensures view { result ≡ on_saga (world J.Journal B.Bank self.now) saga Err Ok }
        ensures read { OnOk result (is_some self.now.table ≡ true) }
    {
        let Some(table) = &self.table else {
            return Err(RunnerFault::Unread);
        };
        table.find(saga).ok_or(RunnerFault::NoOpenSaga)
    }

    /// The same of the saga of a ticket or slip. Checks 30, 32.
    pub(crate) fn open(&self, numbers: Numbers) -> Result<View<Memory>, RunnerFault>
        ensures view { result ≡ on_open (world J.Journal B.Bank self.now) numbers.saga numbers.restart Err Ok }
        ensures read { OnOk result (is_some self.now.table ≡ true) }
    {
        if self.table.is_some() && numbers.restart != self.restarts {
            return Err(RunnerFault::NoOpenSaga);
        }
        self.saga(numbers.saga)
    }

    /// The same of a saga that is to be running. Checks 30, 32, 36.
    pub(crate) fn running(&self, numbers: Numbers) -> Result<View<Memory>, RunnerFault>
        ensures view { result ≡ on_running (world J.Journal B.Bank self.now) numbers.saga numbers.restart Err Ok }
        ensures read { OnOk result (is_some self.now.table ≡ true) }
    {
        let seen = self.open(numbers)?;
        match seen.phase {
            Phase::Running => Ok(seen),
            _ => Err(RunnerFault::WrongPhase),
        }
    }

    /// Places that no record has taken.
    pub(crate) fn free(&self) -> usize
        ensures { result ≡ J.Journal.capacity self.now.journal - length (J.JournalRead.records self.now.journal) }
    {
        self.journal.capacity() - self.journal.count()
    }

    /// Whether fewer places are free than are owed and wanted.
    pub(crate) fn lacks(&self, more: u8) -> bool
        ensures { result ≡ lacks more (world J.Journal B.Bank self.now) }
    {
        let owed = self.table.as_ref().map_or(0, |table| table.owed());
        self.free() < owed + more as usize
    }
}
