//! Participants: cells with ceilings, the entries that stand, and the calls that let one in or take it off.
#![tactic(auto)]

pub mod answer;
pub mod book;
pub mod cell;
mod effect;
mod opening;
pub mod participant;
