//! Sagas run over a journal and a bank: every call makes at most one write, a record or a call to a participant.
#![tactic(auto)]

pub mod declined;
pub mod fault;
pub mod memory;
pub mod moves;
pub mod play;
pub mod progress;
pub mod runner;
pub mod ticket;
pub mod waiting;
