//! The law of the journal: what each record does to its saga, and which records are lawful.
#![tactic(auto)]

pub mod event;
pub mod reading;
pub mod row;
pub mod table;
