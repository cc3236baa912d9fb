//! The tests of the cells that a participant is opened on.
ghost use Rattle.std.specs.Prelude.{◌≡◌, ℕ, List};
ghost use Rattle.bounded.specs.Firsts.{every};
ghost use Rattle.participants.specs.Opening.{in_range, numbers_once};

use crate::cell::{Cell, has_cell};

/// The highest ceiling.
const CEILING: u32 = 1_000_000;

fn is_in_range(cell: &Cell) -> bool
    ensures { result ≡ in_range cell.now }
{
    cell.value <= cell.ceiling && cell.ceiling <= CEILING
}

pub(crate) fn all_in_range(cells: &[Cell]) -> bool
    ensures { result ≡ every in_range cells.now }
{
    cells.iter().all(is_in_range)
}

pub(crate) fn numbered_once(cells: &[Cell]) -> bool
    ensures { result ≡ numbers_once cells.now }
{
    // No method of slices compares an item with all that follow it.
    let mut rest = cells;
    while let Some((cell, after)) = rest.split_first() {
        if has_cell(after, cell.number) {
            return false;
        }
        rest = after;
    }
    true
}
