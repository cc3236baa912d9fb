//! Every promise is by `held`, the list that stands in the array. An index past its end answers `None`, and nothing changes.
ghost use Rattle.std.specs.Prelude.{◌≡◌, ℕ, ◌+◌, ◌-◌, ◌<◌, ◌≤◌, List, [], ◌∷◌, ◌++◌, length, take, is_ok, ◌==◌, nat_le, nat_lt, slice_set};
ghost use Rattle.std.specs.List.{slice_get, remove};
ghost use Rattle.bounded.specs.Held.{held, push_after, pop_after};

use crate::{Bounded, Full};

impl<T: Copy, const N: usize> Bounded<T, N> {
    /// The empty list; `fill` stands in the places that no item has taken.
    pub fn new(fill: T) -> Bounded<T, N>
        ensures { held result ≡ [] }
    {
        Bounded {
            items: [fill; N],
            len: 0,
        }
    }

    // Whether an item stands at i.
    fn has(&self, i: usize) -> bool
        ensures { result ≡ nat_lt i self.now.len }
    {
        i < self.len
    }

    fn is_full(&self) -> bool
        ensures { result ≡ nat_le N self.now.len }
    {
        self.len >= N
    }

    fn is_empty(&self) -> bool
        ensures { result ≡ (self.now.len == 0) }
    {
        self.len == 0
    }

    /// How many items stand.
    pub fn len(&self) -> usize
        ensures { result ≡ length (held self.now) }
    {
        self.len
    }

    /// The items, in their order.
    pub fn as_slice(&self) -> &[T]
        ensures { result.now ≡ held self.now }
    {
        let all = &self.items[..];
        &all[..self.len]
    }

    /// The item at i.
    pub fn get(&self, i: usize) -> Option<T>
        ensures { result ≡ slice_get (held self.now) i }
    {
        self.as_slice().get(i).copied()
    }

    /// Puts an item at the end, if there is room.
    pub fn push(&mut self, x: T) -> Result<(), Full>
        ensures answer { is_ok result ≡ nat_lt (length (held self.old)) N }
        ensures after { held self.new ≡ push_after N (held self.old) x }
    {
        if self.is_full() {
            return Err(Full);
        }
        self.items[self.len] = x;
        self.len += 1;
        Ok(())
    }

    /// Takes the last item.
    pub fn pop(&mut self) -> Option<T>
        ensures answer { result ≡ slice_get (held self.old) (length (held self.old) - 1) }
        ensures after { held self.new ≡ pop_after (held self.old) }
    {
        if self.is_empty() {
            return None;
        }
        self.len -= 1;
        Some(self.items[self.len])
    }

    /// Takes out the item at i; those after it keep their order.
    #[tactic(auto, using(crate::proofs::Fronts::front_moved))]
    pub fn remove(&mut self, i: usize) -> Option<T>
        ensures answer { result ≡ slice_get (held self.old) i }
        ensures after { held self.new ≡ remove (held self.old) i }
    {
        if !self.has(i) {
            return None;
        }
        let x = self.items[i];
        let all = &mut self.items[..];
        all.copy_within(i + 1..self.len, i);
        self.len -= 1;
        Some(x)
    }

    /// Puts another item in the place of the one at i, which it gives.
    #[tactic(auto, using(crate::proofs::Fronts::front_set))]
    pub fn set(&mut self, i: usize, x: T) -> Option<T>
        ensures answer { result ≡ slice_get (held self.old) i }
        ensures after { held self.new ≡ slice_set (held self.old) i x }
    {
        if !self.has(i) {
            return None;
        }
        let old = self.items[i];
        self.items[i] = x;
        Some(old)
    }

    /// Keeps the first n.
    pub fn truncate(&mut self, n: usize)
        ensures { held self.new ≡ take n (held self.old) }
    {
        self.len = self.len.min(n);
    }
}
