//! What the runner remembers of an open saga besides the journal; a restart forgets it.
use law::event::Outcome;

/// What the pending step came to, to be recorded next: once its participant has been called since the last restart.
pub type Memory = Option<Outcome>;
