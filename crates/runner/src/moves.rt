//! The calls that a rehearsal makes, each of them whole or cut.
use crate::ticket::Numbers;
use terms::Request;

/// A call, with its ticket or slip by its two numbers: any two, also those of no ticket that was ever given.
#[derive(Clone, Copy, PartialEq, Eq, Debug)]
pub enum Call {
    Restart,
    Begin(u32),
    Step(Numbers, u8, Request),
    Mark(Numbers),
    Join(Numbers),
    Back(Numbers, u8),
    Finish(Numbers),
    Cancel(Numbers),
    Advance(u32),
    Answer(Numbers),
}

/// How far a call came: it answered, or it was cut before its write, or after it.
#[derive(Clone, Copy, PartialEq, Eq, Debug)]
pub enum Reach {
    Made,
    CutBefore,
    CutAfter,
}

/// A call, and how far it came.
#[derive(Clone, Copy, PartialEq, Eq, Debug)]
pub struct Move {
    pub call: Call,
    pub reach: Reach,
}
