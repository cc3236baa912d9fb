//! The cells of what a site lists.
ghost use Rattle.std.specs.Prelude.{◌≡◌, ℕ, ◌+◌, List};
ghost use Rattle.participants.specs.declared.cell.Cell.{Cell};
ghost use Rattle.site.specs.Listing.{level_cell, tag_cell, listed, listed_as};

use bounded::Bounded;
use participants::answer::SiteFault;
use participants::cell::Cell;
use terms::{Level, Tag};

/// What a site lists becomes a cell by its place in the list, counted from 1.
pub trait Listed {
    ghost cell: { Self → ℕ → Cell };

    fn cell(&self, place: u64) -> Cell
        ensures { result ≡ cell self.now place };
}

impl Listed for Level {
    ghost cell = { level_cell };

    fn cell(&self, place: u64) -> Cell {
        Cell {
            number: place,
            value: self.value,
            ceiling: self.ceiling,
        }
    }
}

impl Listed for Tag {
    ghost cell = { tag_cell };

    fn cell(&self, _place: u64) -> Cell {
        Cell {
            number: self.name,
            value: self.value,
            ceiling: 1,
        }
    }
}

/// The cells of a list, unless they are more than `C`.
pub(crate) fn cells_of<L: Listed, const C: usize>(list: &[L]) -> Result<Bounded<Cell, C>, SiteFault>
    ensures { listed_as result ≡ listed C L.Listed.cell list.now }
{
    let mut cells = Bounded::new(Cell::default());
    for (i, item) in list.iter().enumerate() {
        cells.push(item.cell(i as u64 + 1))?;
    }
    Ok(cells)
}
