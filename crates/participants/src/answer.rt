//! What a participant answers to a request, and why it cannot be opened.
ghost use Rattle.std.specs.Prelude.{◌≡◌};
ghost use Rattle.participants.specs.declared.answer.SiteFault.TheVariants.{TooMany};
ghost use Rattle.participants.specs.Codes.{site_code};

use bounded::Full;
use terms::Refusal;

/// What a participant answers: the request is accepted, or why not.
pub type Answer = Result<Accepted, Refusal>;

/// In which way a request is accepted.
#[derive(Clone, Copy, PartialEq, Eq, Debug)]
pub enum Accepted {
    /// The entry was let in.
    Done,
    /// The key stands with this very request: nothing changed.
    Already,
}

/// Why a participant cannot be opened on the cells handed in.
#[derive(Clone, Copy, PartialEq, Eq, Debug)]
pub enum SiteFault {
    /// More cells than it has room for.
    TooMany,
    /// A value above its ceiling, or a ceiling above 1,000,000.
    OutOfRange,
    /// A number listed twice.
    Twice,
}

/// A list of cells that is full has no room for another.
impl From<Full> for SiteFault {
    ghost from_gives = { λ _ r. r ≡ TooMany };

    fn from(_full: Full) -> SiteFault {
        Self::TooMany
    }
}

/// The number that reports have for it.
impl From<SiteFault> for u16 {
    ghost from_gives = { λ fault r. r ≡ site_code fault };

    fn from(fault: SiteFault) -> u16 {
        match fault {
            SiteFault::TooMany | SiteFault::OutOfRange => 14,
            SiteFault::Twice => 15,
        }
    }
}
