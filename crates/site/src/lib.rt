//! The product's participants: output groups, feeders and tags, and their bank.
#![tactic(auto)]

pub mod example;
pub mod kinds;
mod listing;
pub mod site_bank;
