//! How far an advance brings a saga.
ghost use Rattle.std.specs.Prelude.{◌≡◌};
ghost use Rattle.runner.specs.Calls.{progress_number};

/// A participant is called, and what it came to is recorded by the next advance.
#[derive(Clone, Copy, PartialEq, Eq, Debug)]
pub enum Progress {
    Called = 1,
    Recorded = 2,
}

/// The number that an advance answers.
impl From<Progress> for u8 {
    ghost from_gives = { λ progress r. r ≡ progress_number progress };

    fn from(progress: Progress) -> u8 {
        progress as u8
    }
}
