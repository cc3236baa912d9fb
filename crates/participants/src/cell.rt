//! What a participant keeps, and the two ways in which a request changes it.
ghost use Rattle.std.specs.Prelude.{◌≡◌, ℕ};
ghost use Rattle.participants.specs.Effects.{has_cell};
ghost use Rattle.participants.specs.Party.{value_in};

/// A number with a value and the ceiling that the value never passes.
#[derive(Clone, Copy, PartialEq, Eq, Debug, Default)]
pub struct Cell {
    pub number: u64,
    pub value: u32,
    pub ceiling: u32,
}

/// The two sides of a request's effect on a cell.
// An enum and no closure: the definitions name the side, and a closure's contract would have to say which side it is.
#[derive(Clone, Copy, PartialEq, Eq, Debug)]
pub enum Side {
    Take,
    Give,
}

pub(crate) fn has_cell(cells: &[Cell], number: u64) -> bool
    ensures { result ≡ has_cell number cells.now }
{
    cells.iter().any(|cell| cell.number == number)
}

pub(crate) fn value_of(cells: &[Cell], number: u64) -> Option<u32>
    ensures { result ≡ value_in number cells.now }
{
    let cell = cells.iter().find(|cell| cell.number == number)?;
    Some(cell.value)
}
