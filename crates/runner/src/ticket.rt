//! The right to order a saga on. It is moved from call to call, and may be let go only when spent: number 0, which no
//! saga has. Only the runner makes one, exchanges it for a slip or spends it.
ghost use Rattle.std.specs.Prelude.{◌≡◌};
ghost use Rattle.runner.specs.declared.declined.Declined.TheVariants.{Spent};
ghost use Rattle.runner.specs.Slips.{slip_of};

use crate::declined::Declined;
use crate::fault::RunnerFault;
use crate::waiting::Waiting;

/// The two numbers of a ticket or slip: its saga, and the count of restarts when it was given.
#[derive(Clone, Copy, PartialEq, Eq, Debug)]
pub struct Numbers {
    pub saga: u32,
    pub restart: u64,
}

/// The saga may be ordered on: by step, finish or cancel, which take the ticket.
pub struct Ticket {
    pub(crate) numbers: Numbers,
}

impl Drop for Ticket {
    fn drop(self)
        requires { self.numbers.saga ≡ 0 }
    {
        self.spend();
    }
}

impl Ticket {
    /// Takes the ticket apart, so that nothing is left to let go.
    pub(crate) fn spend(self) {
        let Ticket { numbers: _ } = self;
    }

    /// A ticket is spent with 30 and 32, and the fault told.
    pub(crate) fn spent(self, fault: RunnerFault) -> Declined<Ticket>
        ensures { result ≡ Spent fault }
    {
        self.spend();
        Declined::Spent(fault)
    }

    pub(crate) fn wait(self) -> Waiting
        ensures { result ≡ slip_of self }
    {
        let Ticket { numbers } = self;
        Waiting { numbers }
    }
}
