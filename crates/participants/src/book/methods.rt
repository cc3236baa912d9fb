ghost use Rattle.std.specs.Prelude.{◌≡◌, ℕ, ◌+◌, ◌≤◌, List, map};
ghost use Rattle.bounded.specs.Held.{held};
ghost use Rattle.bounded.proofs.Fronts.{held_fits};
ghost use Rattle.participants.specs.Effects.{effect};
ghost use Rattle.participants.specs.Party.{taken_off, stands, lowered, raised, Raisable};
ghost use Rattle.participants.specs.Opening.{opened_on};
ghost use Rattle.participants.specs.Books.{book_party, opened_as};
ghost use Rattle.participants.specs.Laws.{keeps};

use crate::answer::{Accepted, Answer, SiteFault};
use crate::book::Book;
use crate::cell::{Cell, Side, value_of};
use crate::effect::{effect_of, take_of};
use crate::opening::{all_in_range, numbered_once};
use crate::participant::Participant;
use bounded::Bounded;
use terms::{Entry, Key, Request};

fn lower_cell(cell: Cell, q: &Request) -> Cell
    ensures { result ≡ lowered q.now cell }
{
    Cell {
        value: cell.value.saturating_sub(take_of(q, cell.number)),
        ..cell
    }
}

// Each value falls by what the request takes of its cell. In place, here and in raise, so that a change costs the cells listed
// and not the room for them; by index, since the items lent for writing were tried, and the list's ghost fields did not come
// back. Two loops: raising asks for room at each cell, lowering does not.
#[tactic(auto, using(crate::proofs::Over::over_more, crate::proofs::Over::over_never, crate::proofs::Over::over_end))]
fn lower<const C: usize>(cells: &mut Bounded<Cell, C>, q: &Request)
    ensures { held cells.new ≡ map (lowered q.now) (held cells.old) }
{
    for i in 0..cells.len() {
        if let Some(cell) = cells.get(i) {
            let _ = cells.set(i, lower_cell(cell, q));
        }
    }
}

fn raise_cell(cell: Cell, side: Side, q: &Request) -> Cell
    requires { cell.value + effect side cell.number q.now ≤ 1000000 }
    ensures { result ≡ raised side q.now cell }
{
    Cell {
        value: cell.value + effect_of(side, q, cell.number),
        ..cell
    }
}

// Each value grows by one side of the request's effect on its cell.
#[tactic(auto, using(crate::proofs::Over::over_more, crate::proofs::Over::over_never, crate::proofs::Over::over_end, crate::proofs::Cells::raisable_read))]
fn raise<const C: usize>(cells: &mut Bounded<Cell, C>, side: Side, q: &Request)
    requires { Raisable side q.now (held cells.old) }
    ensures { held cells.new ≡ map (raised side q.now) (held cells.old) }
{
    for i in 0..cells.len() {
        if let Some(cell) = cells.get(i) {
            let _ = cells.set(i, raise_cell(cell, side, q));
        }
    }
}

impl<const C: usize> Book<C> {
    /// A participant of these verbs on these cells, with nothing standing.
    #[tactic(auto, using(crate::proofs::Opened::opened_sound))]
    pub fn open(verbs: Bounded<u8, 2>, cells: Bounded<Cell, C>) -> Result<Book<C>, SiteFault>
        ensures { opened_as result ≡ opened_on (held verbs) (held cells.entry) }
    {
        if !all_in_range(cells.as_slice()) {
            return Err(SiteFault::OutOfRange);
        }
        if !numbered_once(cells.as_slice()) {
            return Err(SiteFault::Twice);
        }
        Ok(Book {
            verbs,
            cells,
            entries: Bounded::new(Entry::default()),
        })
    }

    // Takes a standing entry off, and adds one side of its effect to the values.
    fn take_off(&mut self, key: Key, side: Side) -> bool
        ensures answer { result ≡ stands (book_party self.old) key }
        ensures after { book_party self.new ≡ taken_off side (book_party self.old) key }
    {
        let Some(i) = self.place(key) else {
            return false;
        };
        let Some(entry) = self.entries.get(i) else {
            return false;
        };
        raise(&mut self.cells, side, &entry.request);
        self.entries.remove(i);
        true
    }
}

impl<const C: usize> Participant for Book<C> {
    ghost means = { book_party };

    ghost writes = { λ _. 0 };

    ghost ceilings = { λ b. keeps (book_party b) b.sound };

    ghost orderly = { λ b. (b.once, held_fits b.entries) };

    #[tactic(auto, using(crate::proofs::Kept::performed, crate::proofs::Kept::performed_once, crate::proofs::Kept::performed_sound))]
    fn perform(&mut self, entry: Entry) -> Answer {
        let accepted = self.judge(&entry)?;
        if let Accepted::Done = accepted {
            lower(&mut self.cells, &entry.request);
            // The judge saw room for it.
            let _ = self.entries.push(entry);
        }
        Ok(accepted)
    }

    fn undo(&mut self, key: Key) -> bool {
        self.take_off(key, Side::Take)
    }

    fn settle(&mut self, key: Key) -> bool {
        self.take_off(key, Side::Give)
    }

    fn value(&self, cell: u64) -> Option<u32> {
        value_of(self.cells.as_slice(), cell)
    }

    #[tactic(auto, using(crate::proofs::Kept::some_stands))]
    fn stands(&self, key: Key) -> bool {
        self.standing(key).is_some()
    }
}
