//! Reads a script from standard input, takes its first saga through the bank of its site, notes it in a journal of 1,024
//! slots, and prints what the journal says and every cell. A saga with a try is not taken yet.
#![tactic(auto)]

mod kind;
mod lines;
mod saga;

use crate::lines::{print_cells, print_journal};
use crate::saga::take;
use anyhow::anyhow;
use grammar::Script;
use journals::slots::SlotJournal;
use journals::traits::Journal;
use record::SLOT;
use script::read;
use site::site_bank::open;
use std::io::Read;
use std::process::ExitCode;
use tokens::text::Fault;

const SLOTS: usize = 1024;

fn run(rt: &HostRuntime, script: &Script) -> anyhow::Result<()> {
    let Ok(mut bank) = open(&script.site.groups, &script.site.feeders, &script.site.tags) else {
        return Err(anyhow!("the site is out of range"));
    };
    let mut bytes = vec![in rt.alloc(); 0u8; SLOT * SLOTS]?;
    let mut journal = SlotJournal::open(bytes.as_mut_slice());
    if let Some(saga) = script.sagas.first() {
        take(&mut journal, &mut bank, saga);
    }
    print_journal(rt, &journal)?;
    print_cells(rt, &bank, &script.site)?;
    Ok(())
}

/// A refused text tells its fault and ends with status 1.
fn main(rt: HostRuntime) -> anyhow::Result<ExitCode> {
    let mut text = Vec::new(rt.alloc());
    rt.stdin().read_to_end(&mut text)?;
    match read(rt.alloc(), &text) {
        Ok(script) => {
            run(&rt, &script)?;
            Ok(ExitCode::SUCCESS)
        }
        Err(Fault::At(cause, at)) => {
            println!(rt; "fault {} at {at}", u8::from(cause))?;
            Ok(ExitCode::FAILURE)
        }
        Err(Fault::Memory) => Err(anyhow!("no memory")),
    }
}
