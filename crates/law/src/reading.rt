//! The law's reading of a list of records.
ghost use Rattle.std.specs.Prelude.{◌≡◌};
ghost use Rattle.law.specs.Keeps.{Readings};
ghost use Rattle.law.specs.Sagas.{reading};
ghost use Rattle.law.specs.Tables.{table_read};

use crate::table::Table;
use journals::traits::JournalRead;

/// Reads a journal in a bank of so many participants: the table of the open sagas, each with the note, or the index of
/// the first record that is not lawful.
#[tactic(auto, using(crate::proofs::Kept::readings))]
pub fn read<J: JournalRead, V: Copy>(
    journal: &J,
    participants: u8,
    note: V,
) -> Result<Table<V>, usize>
    ensures value { table_read result ≡ reading participants note (J.JournalRead.records journal.now) }
    ensures law { Readings V }
{
    let mut table = Table::new(note);
    for (place, record) in journal.entries().enumerate() {
        if table.take(record, participants, note).is_err() {
            return Err(place);
        }
    }
    Ok(table)
}

#[cfg(test)]
mod tests {
    use super::*;
    use crate::event::Event;
    use std::test::Fail;

    #[test]
    fn an_undo_before_any_step_is_unlawful(rt: HostRuntime) -> Result<(), Fail> {
        let records = [Event::Begin.to_record(5), Event::Undone(1).to_record(5)];
        match read(&&records[..], 3, ()) {
            Err(index) => {
                assert_eq!(rt; index, 1);
                Ok(())
            },
            Ok(_) => Err(Fail::new("read as lawful")),
        }
    }
}
