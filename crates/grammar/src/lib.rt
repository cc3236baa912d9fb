//! What a script is, and what the grammar makes of it.
#![tactic(auto)]

use terms::{Level, Request, Tag, Verb};

pub mod readers;

/// The sections of the site that list cells.
#[derive(Clone, Copy, Debug, PartialEq, Eq)]
pub enum Section {
    Groups,
    Feeders,
}

/// What the participants start with.
#[derive(Drop)]
pub struct Site {
    pub groups: Vec<Level>,
    pub feeders: Vec<Level>,
    pub tags: Vec<Tag>,
}

// A flat list and no tree: the run walks it from front to back, and it is one allocation.
/// A saga's items as they stand in the text. A try is `Try`, its body, `Else`, its other part, `End`.
#[derive(Clone, Copy, Debug, PartialEq, Eq)]
pub enum Item {
    Step(Request),
    Try,
    Else,
    End,
}

/// A saga: its number and its items.
#[derive(Drop)]
pub struct Saga {
    pub number: u32,
    pub items: Vec<Item>,
}

/// A whole script: what the participants start with, and the sagas to run in order.
#[derive(Drop)]
pub struct Script {
    pub site: Site,
    pub sagas: Vec<Saga>,
}

/// What an item begins with, or the brace after the last one.
// `Close` and no `Option`: it is one of the three things that may come, and an Option would only rename it.
#[derive(Clone, Copy, Debug, PartialEq, Eq)]
pub enum Head {
    Step(Verb),
    Group,
    Close,
}
