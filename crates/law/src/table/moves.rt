//! What records do to a table.
ghost use Rattle.std.specs.Prelude.{◌≡◌, ℕ, ◌<◌, ◌≤◌, Bool, List, map, length, is_ok};
ghost use Rattle.std.specs.Result.{result_ok};
ghost use Rattle.bounded.specs.Held.{held};
ghost use Rattle.law.specs.Sagas.{applied_if, begins, moves, noted, taken};
ghost use Rattle.law.specs.Tables.{sagas_of};

use crate::event::{Event, Unlawful};
use crate::row::Row;
use crate::table::{Open, Table};
use record::Record;

// Participants and note are passed by each call: a table that held them would owe in each contract that they stay.
impl<V: Copy> Table<V> {
    fn begin(&mut self, saga: u32, note: V) -> Result<(), Unlawful>
        ensures { (is_ok result, sagas_of self.new) ≡ begins saga note (sagas_of self.old) }
    {
        if saga <= self.top || saga > 1_000_000 {
            return Err(Unlawful);
        }
        let row = Row::begin(saga);
        self.rows.push(Open { row, note }).map_err(|_| Unlawful)?;
        self.top = saga;
        Ok(())
    }

    fn move_open(&mut self, saga: u32, event: Event, participants: u8) -> Result<(), Unlawful>
        ensures { (is_ok result, sagas_of self.new) ≡ moves participants saga event (sagas_of self.old) }
    {
        let Some(place) = self.place_of(saga) else {
            return Err(Unlawful);
        };
        let Some(mut open) = self.rows.get(place) else {
            return Err(Unlawful);
        };
        open.row.apply(event, participants)?;
        if open.row.is_open() {
            let _ = self.rows.set(place, open);
        } else {
            let _ = self.rows.remove(place);
        }
        Ok(())
    }

    /// What the event makes of the saga in a bank of so many participants. `Event::try_from` gives it: what says none, and
    /// an event that is not lawful, changes nothing. A saga that begins has the note, and one that closes leaves the table.
    pub fn apply(
        &mut self,
        saga: u32,
        event: Result<Event, Unlawful>,
        participants: u8,
        note: V,
    ) -> Result<(), Unlawful>
        ensures { (is_ok result, sagas_of self.new) ≡ applied_if participants saga (result_ok event) note (sagas_of self.old) }
    {
        let event = event?;
        match event {
            Event::Begin => self.begin(saga, note),
            _ => self.move_open(saga, event, participants),
        }
    }

    /// The same of a record as it lies in the journal; one that says nothing is unlawful.
    pub fn take(&mut self, record: Record, participants: u8, note: V) -> Result<(), Unlawful>
        ensures { (is_ok result, sagas_of self.new) ≡ taken participants note (sagas_of self.old) «record» }
    {
        self.apply(record.saga, Event::try_from(record), participants, note)
    }

    /// Another note for an open saga.
    pub fn note(&mut self, saga: u32, note: V)
        ensures { sagas_of self.new ≡ noted saga note (sagas_of self.old) }
    {
        let Some(place) = self.place_of(saga) else {
            return;
        };
        if let Some(open) = self.rows.get(place) {
            let row = open.row;
            let _ = self.rows.set(place, Open { row, note });
        }
    }
}
