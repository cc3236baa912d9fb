//! A saga while it is read.
ghost use Rattle.std.specs.Prelude.{◌≡◌, [], ◌∷◌, ◌++◌, is_ok, if◌then◌else◌};

use grammar::Item;
use std::alloc::AllocFailed;

/// A saga while it is read, with the count of its steps.
#[derive(Drop)]
pub struct Draft {
    pub number: u32,
    pub steps: u32,
    pub items: Vec<Item>,
}

impl Draft {
    /// Adds an item that is no step.
    pub fn mark(&mut self, item: Item) -> Result<(), AllocFailed<Item>>
        ensures number { self.new.number ≡ self.old.number }
        ensures steps { self.new.steps ≡ self.old.steps }
        ensures items { self.new.items.items ≡ (if is_ok result then self.old.items.items ++ item ∷ [] else self.old.items.items) }
    {
        self.items.push(item)
    }
}
