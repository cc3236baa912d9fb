//! What is read of a table.
ghost use Rattle.std.specs.Prelude.{◌≡◌, ℕ, ◌+◌, ◌*◌, ◌<◌, ◌≤◌, List, [], map, length, sum_by};
ghost use Rattle.bounded.specs.Held.{held};
ghost use Rattle.bounded.specs.Firsts.{place};
ghost use Rattle.law.specs.Law.{owes};
ghost use Rattle.law.specs.Sagas.{sagas, of_saga, owed};
ghost use Rattle.law.specs.Tables.{open_of, sagas_of};
ghost use Rattle.law.specs.Views.{view};

use crate::row::Row;
use crate::table::{Open, Table, View};
use bounded::Bounded;

/// Where the saga stands among the rows.
fn find_in<V: Copy>(rows: &[Open<V>], saga: u32) -> Option<usize>
    ensures { result ≡ place (of_saga saga) (map open_of rows.now) }
{
    // A position and no map or binary search: at most 8 rows in fixed memory.
    rows.iter().position(|open| open.row.is_of(saga))
}

/// What the rows owe together.
fn owed_in<V: Copy>(rows: &[Open<V>]) -> usize
    requires { length rows.now ≤ 8 }
    ensures { result ≡ sum_by (λ x. owes x.0) (map open_of rows.now) }
{
    rows.iter().map(|open| open.row.owes()).sum()
}

impl<V: Copy> Table<V> {
    /// No saga is begun. The note stands for those of the empty places, and is never read.
    pub fn new(note: V) -> Table<V>
        ensures { sagas_of result ≡ sagas 0 [] }
    {
        Table {
            top: 0,
            rows: Bounded::new(Open {
                row: Row::begin(0),
                note,
            }),
        }
    }

    pub(crate) fn place_of(&self, saga: u32) -> Option<usize>
        ensures { result ≡ place (of_saga saga) (sagas_of self.now).rows }
    {
        find_in(self.rows.as_slice(), saga)
    }

    /// What is to be known of an open saga; none where no saga of the number is open.
    pub fn find(&self, saga: u32) -> Option<View<V>>
        ensures { result ≡ view saga (sagas_of self.now) }
    {
        let Some(place) = self.place_of(saga) else {
            return None;
        };
        let open = self.rows.get(place)?;
        Some(open.row.seen(open.note))
    }

    /// The highest number begun; 0 where none is.
    pub fn highest_begun(&self) -> u32
        ensures { result ≡ (sagas_of self.now).top }
    {
        self.top
    }

    /// How many sagas are open.
    pub fn open_count(&self) -> usize
        ensures { result ≡ length (sagas_of self.now).rows }
    {
        self.rows.len()
    }

    /// The records that the open sagas owe together.
    pub fn owed(&self) -> usize
        ensures value { result ≡ owed (sagas_of self.now) }
        ensures few { result ≤ 280 }
    {
        owed_in(self.rows.as_slice())
    }
}
