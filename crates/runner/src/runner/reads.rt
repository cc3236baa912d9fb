//! The making of a runner, its restart, and what is read of it.
ghost use Rattle.std.specs.Prelude.{◌≡◌, ℕ, ◌+◌, ◌-◌, ◌≤◌, List, [], length};
ghost use Rattle.runner.specs.Mirrors.{Mirrored};
ghost use Rattle.runner.specs.Rooms.{Room};
ghost use Rattle.runner.specs.Worlds.{world, OneWrite};
ghost use Rattle.runner.specs.Calls.{restarted, phase_read, new_world};

use crate::fault::RunnerFault;
use crate::runner::Runner;
use bank::bank::Bank;
use journals::traits::Journal;
use law::event::Phase;
use law::reading::read;

impl<J: Journal, B: Bank> Runner<J, B> {
    /// A runner that has read nothing yet: its first call is restart.
    pub fn new(journal: J, bank: B) -> Runner<J, B>
        ensures same { result.journal ≡ journal }
        ensures alike { result.bank ≡ bank }
        ensures unread { world J.Journal B.Bank result ≡ new_world J.Journal B.Bank journal bank }
    {
        Runner {
            journal,
            bank,
            table: None,
            restarts: 0,
        }
    }

    /// The journal and the bank; what else the runner knew is gone.
    pub fn into_parts(self) -> (J, B)
        ensures same { result.0 ≡ self.journal }
        ensures alike { result.1 ≡ self.bank }
    {
        let Runner {
            journal,
            bank,
            table: _,
            restarts: _,
        } = self;
        (journal, bank)
    }

    /// Forgets everything and reads the journal; answers the number of open sagas.
    #[tactic(auto, using(crate::proofs::Calling::mirrored))]
    pub fn restart(&mut self) -> Result<usize, RunnerFault>
        ensures after { (result, world J.Journal B.Bank self.new) ≡ restarted (world J.Journal B.Bank self.old) }
        ensures cost { OneWrite J.Journal B.Bank self.old self.new }
        ensures law { Mirrored }
        ensures room { Room }
    {
        self.restarts = self.restarts.wrapping_add(1);
        self.table = None;
        let table = read(&self.journal, self.bank.count(), None).map_err(
            |index| RunnerFault::UnlawfulRecord(index),
        )?;
        if self.free() < table.owed() {
            return Err(RunnerFault::ShortOfPlaces);
        }
        let open = table.open_count();
        self.table = Some(table);
        Ok(open)
    }

    /// Where an open saga stands; none while the journal is not read.
    pub fn phase(&self, saga: u32) -> Option<Phase>
        ensures { result ≡ phase_read saga (world J.Journal B.Bank self.now) }
    {
        let seen = self.table.as_ref()?.find(saga)?;
        Some(seen.phase)
    }
}
