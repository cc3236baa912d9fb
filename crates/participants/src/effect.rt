//! What a request does to a cell.
ghost use Rattle.std.specs.Prelude.{◌≡◌, ◌+◌, ◌^◌, ◌<◌};
ghost use Rattle.participants.specs.Effects.{takes, gives, effect, other_cell_fits, amount_fits};

use crate::cell::{Cell, Side, has_cell};
use terms::{Request, Verb};

// Request and cell are passed apart, here and below: one request is asked of every cell. Its parts are read first, the number of
// its verb is compared, and the cell comes last: LLVM takes all that does not speak of the cell out of a loop over cells. Matches
// on the verb, and chains of `if`s over it, were measured, and stayed in those loops.
pub(crate) fn take_of(q: &Request, cell: u64) -> u32
    ensures { result ≡ takes cell q.now }
{
    let Request { verb, amount, a, b } = *q;
    let moves = verb == u8::from(Verb::Move);
    let hangs = verb == u8::from(Verb::Hang);
    let takes = verb == u8::from(Verb::Claim) || moves || hangs;
    let at = if moves { b } else { a };
    let take = if hangs { 1 } else { amount };
    if takes && cell == at { take } else { 0 }
}

pub(crate) fn give_of(q: &Request, cell: u64) -> u32
    ensures { result ≡ gives cell q.now }
{
    let (verb, amount) = (q.verb, q.amount);
    let lifts = verb == u8::from(Verb::Lift);
    let gives = verb == u8::from(Verb::Return) || verb == u8::from(Verb::Move);
    let give = if gives { amount } else { u32::from(lifts) };
    if cell == q.a { give } else { 0 }
}

pub(crate) fn effect_of(side: Side, q: &Request, cell: u64) -> u32
    ensures { result ≡ effect side cell q.now }
{
    match side {
        Side::Take => take_of(q, cell),
        Side::Give => give_of(q, cell),
    }
}

pub(crate) fn sides_of(q: &Request, cell: u64) -> u64
    ensures sum { result ≡ takes cell q.now + gives cell q.now }
    ensures few { result < 2 ^ 33 }
{
    u64::from(take_of(q, cell)) + u64::from(give_of(q, cell))
}

pub(crate) fn other_cell_fits(cells: &[Cell], q: &Request) -> bool
    ensures { result ≡ other_cell_fits cells.now q.now }
{
    match Verb::try_from(q.verb) {
        Ok(Verb::Move) => has_cell(cells, q.b) && q.a != q.b,
        _ => q.b == 0,
    }
}

pub(crate) fn amount_fits(q: &Request) -> bool
    ensures { result ≡ amount_fits q.now }
{
    match Verb::try_from(q.verb) {
        Ok(Verb::Hang | Verb::Lift) => q.amount == 1,
        _ => (1..=1_000_000).contains(&q.amount),
    }
}
