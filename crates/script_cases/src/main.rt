//! Reads texts, one on each line of the input, and writes what each is read as: the script in full, or its fault.
//! In a line `~` stands for a line feed and `#` for 256 spaces.
#![tactic(auto)]

ghost use Rattle.std.specs.Prelude.{◌≤◌, length, IfOk, vec_len};

use grammar::{Item, Script};
use std::alloc::{AllocError, Global};
use std::{fmt, io};
use terms::{Level, Request};
use tokens::text::Fault;

const BLANKS: [u8; 256] = [b' '; 256];

/// The text that a line stands for.
fn text_of(heap: Global, line: &[u8]) -> Result<Vec<u8>, AllocError>
    ensures { IfOk result (λ v. length line.now ≤ vec_len v) }
{
    let mut text = Vec::new(heap);
    for b in line {
        match *b {
            b'~' => text.push(b'\n')?,
            b'#' => text.extend_from_slice(&BLANKS)?,
            other => text.push(other)?,
        }
    }
    Ok(text)
}

/// The cells of a section, after its word and their count.
#[derive(Clone, Copy)]
struct Cells<'a> {
    word: &'a str,
    cells: &'a [Level],
}

impl<'a> fmt::Display for Cells<'a> {
    fn fmt<W: fmt::Write>(&self, f: &mut fmt::Formatter<W>) -> fmt::Result {
        write!(f, "{} {}", self.word, self.cells.len())?;
        for cell in self.cells {
            write!(f, " {} {}", cell.value, cell.ceiling)?;
        }
        Ok(())
    }
}

/// An item; of a step the numbers of its request.
#[derive(Clone, Copy)]
struct ShownItem(Item);

impl fmt::Display for ShownItem {
    fn fmt<W: fmt::Write>(&self, f: &mut fmt::Formatter<W>) -> fmt::Result {
        match self.0 {
            Item::Try => f.write_str("try"),
            Item::Else => f.write_str("else"),
            Item::End => f.write_str("end"),
            Item::Step(Request { verb, amount, a, b }) => write!(f, "{verb}:{amount}:{a}:{b}"),
        }
    }
}

/// A script on one line.
#[derive(Clone, Copy)]
struct Shown<'a>(&'a Script);

impl<'a> fmt::Display for Shown<'a> {
    fn fmt<W: fmt::Write>(&self, f: &mut fmt::Formatter<W>) -> fmt::Result {
        let site = &self.0.site;
        let groups = Cells {
            word: "groups",
            cells: &site.groups,
        };
        let feeders = Cells {
            word: "feeders",
            cells: &site.feeders,
        };
        write!(f, "{groups} {feeders} tags {}", site.tags.len())?;
        for tag in site.tags.iter() {
            write!(f, " {} {}", tag.name, tag.value)?;
        }
        for saga in self.0.sagas.iter() {
            write!(f, " saga {}", saga.number)?;
            for item in saga.items.iter() {
                write!(f, " {}", ShownItem(*item))?;
            }
        }
        Ok(())
    }
}

fn show_case(rt: &HostRuntime, line: &[u8]) -> io::Result<()> {
    let text = text_of(rt.alloc(), line)?;
    match script::read(rt.alloc(), &text) {
        Ok(script) => println!(rt; "{}", Shown(&script)),
        Err(Fault::Memory) => println!(rt; "no memory"),
        Err(Fault::At(cause, at)) => println!(rt; "fault {} at {at}", u8::from(cause)),
    }
}

fn main(rt: HostRuntime) -> io::Result<()> {
    for line in rt.lines(rt.alloc()) {
        let line = line?;
        show_case(&rt, line.as_bytes())?;
    }
    Ok(())
}
