//! Worked examples, run on the code.
#![tactic(auto)]

pub mod calls;
