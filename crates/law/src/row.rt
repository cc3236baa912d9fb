//! What is kept of an open saga.
ghost use Rattle.std.specs.Prelude.{◌≡◌, ◌+◌, ◌≤◌, length, ⊤};
ghost use Rattle.bounded.specs.Held.{held};
ghost use Rattle.law.specs.Coming.{coming};

use crate::event::{Outcome, Phase, Step};
use bounded::Bounded;
use std::alloc::AllocError;

pub mod methods;

/// The steps that stand fit their 32 places, since each was issued and at most 32 are.
pub(crate) struct Row {
    saga: u32,
    phase: Phase,
    last: u8,
    standing: Bounded<Step, 32>,
    marks: Bounded<u8, 8>,
    outcome: Outcome,
    ghost few: { last ≤ 32 },
    ghost room: { coming phase + length (held standing) ≤ last },
}

// By hand: a derive has no body whose meaning a must-fail edit could turn.
impl Clone for Row {
    ghost is_clone = { λ s r. r ≡ s };

    ghost is_infallible = { λ _. ⊤ };

    fn clone(&self) -> Result<Row, AllocError> {
        Ok(*self)
    }
}

impl Copy for Row {}
