//! The slip while a step is on its way: moved and spent as a ticket is.
ghost use Rattle.std.specs.Prelude.{◌≡◌};
ghost use Rattle.runner.specs.Slips.{ready_of};

use crate::ticket::{Numbers, Ticket};

// Two structs and no marker type on one: the marker would stand in each signature and definition that names a ticket.
/// A step is on its way: the slip gives the ticket back once its outcome is recorded.
pub struct Waiting {
    pub(crate) numbers: Numbers,
}

impl Drop for Waiting {
    fn drop(self)
        requires { self.numbers.saga ≡ 0 }
    {
        self.spend();
    }
}

impl Waiting {
    pub(crate) fn spend(self) {
        let Waiting { numbers: _ } = self;
    }

    pub(crate) fn ready(self) -> Ticket
        ensures { result ≡ ready_of self }
    {
        let Waiting { numbers } = self;
        Ticket { numbers }
    }
}
