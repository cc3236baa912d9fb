//! Why a call is refused.
ghost use Rattle.std.specs.Prelude.{◌≡◌};
ghost use Rattle.runner.specs.declared.fault.RunnerFault.TheVariants.{Journal};
ghost use Rattle.runner.specs.Codes.{code_of};

use journals::fault::JournalFault;

/// Why a call is refused, with the number that reports have for it.
#[derive(Clone, Copy, PartialEq, Eq, Debug)]
pub enum RunnerFault {
    /// 20: a saga number out of range.
    SagaNumber,
    /// 21: the bank has no such participant.
    NoParticipant,
    /// 22: the record at this index is not lawful.
    UnlawfulRecord(usize),
    /// 23: fewer places are free than are owed.
    ShortOfPlaces,
    /// 30: the journal has not been read since the making or a refused restart.
    Unread,
    /// 31: the saga is still stepping.
    StillStepping,
    /// 32: no saga of the number is open, or the ticket or slip is older than the last restart.
    NoOpenSaga,
    /// 33: the number is not above all begun.
    NumberNotAbove,
    /// 34: 8 sagas are open.
    TooManyOpen,
    /// 35: too few places are free for what is owed and what the call would add.
    NoRoom,
    /// 36: the saga is not running; for advance, it is.
    WrongPhase,
    /// 37: 32 steps are issued, or 8 marks set.
    LimitReached,
    /// 38: no mark to join or to go back to, or marks left at the finish.
    WrongMarks,
    /// The journal's own fault, under the saga whose record it refused.
    Journal { saga: u32, below: JournalFault },
}

/// The fault's number in reports.
impl From<RunnerFault> for u16 {
    ghost from_gives = { λ fault r. r ≡ code_of fault };

    fn from(fault: RunnerFault) -> u16 {
        match fault {
            RunnerFault::SagaNumber => 20,
            RunnerFault::NoParticipant => 21,
            RunnerFault::UnlawfulRecord(_) => 22,
            RunnerFault::ShortOfPlaces => 23,
            RunnerFault::Unread => 30,
            RunnerFault::StillStepping => 31,
            RunnerFault::NoOpenSaga => 32,
            RunnerFault::NumberNotAbove => 33,
            RunnerFault::TooManyOpen => 34,
            RunnerFault::NoRoom => 35,
            RunnerFault::WrongPhase => 36,
            RunnerFault::LimitReached => 37,
            RunnerFault::WrongMarks => 38,
            RunnerFault::Journal { saga: _, below } => u16::from(u8::from(below)),
        }
    }
}

/// A fault of the journal, with the saga it came under.
#[derive(Clone, Copy, PartialEq, Eq, Debug)]
pub struct Unwritten {
    pub saga: u32,
    pub below: JournalFault,
}

impl From<Unwritten> for RunnerFault {
    ghost from_gives = { λ e r. r ≡ Journal e.saga e.below };

    fn from(e: Unwritten) -> RunnerFault {
        RunnerFault::Journal {
            saga: e.saga,
            below: e.below,
        }
    }
}
