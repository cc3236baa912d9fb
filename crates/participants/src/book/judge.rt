//! The tests that a request has to pass, over a book as it stands.
ghost use Rattle.std.specs.Prelude.{◌≡◌, ◌+◌};
ghost use Rattle.bounded.specs.Held.{held};
ghost use Rattle.bounded.specs.Firsts.{any, place, first};
ghost use Rattle.participants.specs.Effects.{taken, given, fitting};
ghost use Rattle.participants.specs.Party.{is_key, short, above, new_answer, do_answer};
ghost use Rattle.participants.specs.Books.{book_party};

use crate::answer::{Accepted, Answer};
use crate::book::{Book, ENTRIES};
use crate::cell::{Cell, has_cell};
use crate::effect::{amount_fits, give_of, other_cell_fits, sides_of, take_of};
use terms::{Entry, Key, Refusal, Request};

impl<const C: usize> Book<C> {
    // Where the key stands.
    pub(crate) fn place(&self, key: Key) -> Option<usize>
        ensures { result ≡ place (is_key key) (held self.now.entries) }
    {
        self.entries.as_slice().iter().position(|e| e.key == key)
    }

    // The entry under the key.
    pub(crate) fn standing(&self, key: Key) -> Option<Entry>
        ensures { result ≡ first (is_key key) (held self.now.entries) }
    {
        self.entries
            .as_slice()
            .iter()
            .find(|e| e.key == key)
            .copied()
    }

    fn fits(&self, q: &Request) -> bool
        ensures { result ≡ fitting (held self.now.verbs) (held self.now.cells) q.now }
    {
        let cells = self.cells.as_slice();
        self.verbs.as_slice().contains(&q.verb)
            && has_cell(cells, q.a)
            && other_cell_fits(cells, q)
            && amount_fits(q)
    }

    // T + G of a cell.
    fn committed(&self, cell: u64) -> u64
        ensures { result ≡ taken cell (held self.now.entries) + given cell (held self.now.entries) }
    {
        self.entries
            .as_slice()
            .iter()
            .map(|e| sides_of(&e.request, cell))
            .sum()
    }

    fn is_short(&self, q: &Request) -> bool
        ensures { result ≡ any (short q.now) (held self.now.cells) }
    {
        self.cells
            .as_slice()
            .iter()
            .any(|cell| cell.value < take_of(q, cell.number))
    }

    fn above_at(&self, cell: &Cell, q: &Request) -> bool
        ensures { result ≡ above (held self.now.entries) q.now cell.now }
    {
        let give = give_of(q, cell.number);
        give > 0
            && u128::from(cell.value) + u128::from(self.committed(cell.number)) + u128::from(give)
                > u128::from(cell.ceiling)
    }

    fn is_above(&self, q: &Request) -> bool
        ensures { result ≡ any (above (held self.now.entries) q.now) (held self.now.cells) }
    {
        self.cells.as_slice().iter().any(
            |cell: &Cell| -> bool
                ensures { result ≡ above (held self.entry.now.entries) q.entry.now cell.now }
            { self.above_at(cell, q) },
        )
    }

    // The answer to a key that does not stand.
    fn judge_new(&self, q: &Request) -> Answer
        ensures { result ≡ new_answer (held self.now.verbs) (held self.now.cells) (held self.now.entries) q.now }
    {
        if !self.fits(q) {
            Err(Refusal::Unfit)
        } else if self.entries.len() >= ENTRIES {
            Err(Refusal::Full)
        } else if self.is_short(q) {
            Err(Refusal::Short)
        } else if self.is_above(q) {
            Err(Refusal::Above)
        } else {
            Ok(Accepted::Done)
        }
    }

    pub(crate) fn judge(&self, entry: &Entry) -> Answer
        ensures { result ≡ do_answer (book_party self.now) entry.now }
    {
        match self.standing(entry.key) {
            Some(standing) if standing.request == entry.request => Ok(Accepted::Already),
            Some(_) => Err(Refusal::OtherRequest),
            None => self.judge_new(&entry.request),
        }
    }
}
