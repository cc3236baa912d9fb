//! The lines that are printed.
use crate::kind::Kind;
use bank::bank::Bank;
use grammar::Site;
use journals::traits::JournalRead;
use law::event::Event;
use std::{fmt, io};
use terms::{Request, Verb};

/// A tag's name, which is a number whose bytes are its letters.
#[derive(Clone, Copy)]
struct TagName(u64);

impl fmt::Display for TagName {
    fn fmt<W: fmt::Write>(&self, f: &mut fmt::Formatter<W>) -> fmt::Result {
        for byte in self.0.to_be_bytes() {
            if byte != 0 {
                f.write_char(char::from(byte))?;
            }
        }
        Ok(())
    }
}

/// What a step asks, in the words of a script.
#[derive(Clone, Copy)]
struct Asked(Request);

impl fmt::Display for Asked {
    fn fmt<W: fmt::Write>(&self, f: &mut fmt::Formatter<W>) -> fmt::Result {
        let Request { verb, amount, a, b } = self.0;
        match Verb::try_from(verb) {
            Ok(Verb::Claim) => write!(f, "claim {amount} of {a}"),
            Ok(Verb::Return) => write!(f, "return {amount} of {a}"),
            Ok(Verb::Move) => write!(f, "move {amount} from {a} to {b}"),
            Ok(Verb::Hang) => write!(f, "hang {}", TagName(a)),
            Ok(Verb::Lift) => write!(f, "lift {}", TagName(a)),
            Err(_) => f.write_str("request"),
        }
    }
}

/// A record's line.
#[derive(Clone, Copy)]
struct Line {
    saga: u32,
    event: Event,
}

impl fmt::Display for Line {
    fn fmt<W: fmt::Write>(&self, f: &mut fmt::Formatter<W>) -> fmt::Result {
        let saga = self.saga;
        match self.event {
            Event::Begin => write!(f, "{saga} begin"),
            Event::Intent(step) => write!(f, "{saga}.{} {}", step.number, Asked(step.request)),
            Event::Done(step) => write!(f, "{saga}.{step} done"),
            Event::Refused(step, refusal) => {
                write!(f, "{saga}.{step} refused {}", u16::from(refusal))
            }
            Event::Mark => write!(f, "{saga} mark"),
            Event::Join => write!(f, "{saga} join"),
            Event::Back(depth) => write!(f, "{saga} back {depth}"),
            Event::Undone(step) => write!(f, "{saga}.{step} undone"),
            Event::Finish => write!(f, "{saga} finish"),
            Event::Settled(step) => write!(f, "{saga}.{step} settled"),
        }
    }
}

/// A line for each record that says something.
pub(crate) fn print_journal<J: JournalRead>(rt: &HostRuntime, journal: &J) -> io::Result<()> {
    for record in journal.entries() {
        if let Ok(event) = Event::try_from(record) {
            let saga = record.saga;
            println!(rt; "{}", Line { saga, event })?;
        }
    }
    Ok(())
}

/// What a cell's line ends with: its value, where its participant has the cell.
#[derive(Clone, Copy)]
struct CellValue(Option<u32>);

impl fmt::Display for CellValue {
    fn fmt<W: fmt::Write>(&self, f: &mut fmt::Formatter<W>) -> fmt::Result {
        match self.0 {
            Some(value) => write!(f, " {value}"),
            None => Ok(()),
        }
    }
}

fn value<B: Bank>(bank: &B, kind: Kind, cell: u64) -> CellValue {
    CellValue(bank.value(u8::from(kind), cell))
}

/// A line for each group or feeder: `count` cells, by number.
fn print_levels<B: Bank>(
    rt: &HostRuntime,
    bank: &B,
    kind: Kind,
    word: &str,
    count: usize,
) -> io::Result<()> {
    for cell in 1..=count as u64 {
        println!(rt; "{word} {cell}{}", value(bank, kind, cell))?;
    }
    Ok(())
}

/// A line for each cell: groups, feeders and tags, as the site lists them.
pub(crate) fn print_cells<B: Bank>(rt: &HostRuntime, bank: &B, site: &Site) -> io::Result<()> {
    print_levels(rt, bank, Kind::Stock, "group", site.groups.len())?;
    print_levels(rt, bank, Kind::Ledger, "feeder", site.feeders.len())?;
    for tag in site.tags.iter() {
        let name = tag.name;
        println!(rt;
            "tag {}{}",
            TagName(name),
            value(bank, Kind::Registry, name)
        )?;
    }
    Ok(())
}
