//! Whole runs that are data: each scenario of the folder that the program is run in, `NAME.scn`, is run over
//! memory, and what the program prints for it is compared with `NAME.report`: the report, or the line on standard
//! error where there is none. One line a scenario says whether they agree.
//!
//! Runs with faults of reading and writing are cases of its tables, `NAME.table`, and those in which each call fails in turn of
//! its files `NAME.faults`: one line a file says how many cases it has, and after it stands each case that differs.
#![tactic(auto)]

mod faults;
mod files;
mod program;
mod row;
mod threads;

use csp_cases::{judge_tables, names_of};
use files::bytes_of;
use program::Program;
use std::fs::Files;
use std::io;
use std::sync::Wait;
use std::thread::Threads;

fn main(rt: HostRuntime) -> io::Result<()> {
    scenarios(&rt)?;
    runs(&rt)?;
    judge_tables(&rt, &Program)?;
    sweeps(&rt)
}

/// Runs the scenarios.
fn scenarios<R: Files + Print + AllocGlobal + Clone + Drop>(rt: &R) -> io::Result<()> {
    let names = names_of(rt, ".scn")?;
    for name in names.as_slice() {
        let text = bytes_of(rt, name.as_str(), ".scn")?;
        let wanted = bytes_of(rt, name.as_str(), ".report")?;
        match row::differing_line(rt.alloc(), text, wanted.as_slice())? {
            None => println!(rt; "{name} is as it should be")?,
            Some(line) => println!(rt; "{name} differs in line {line}")?,
        }
    }
    Ok(())
}

/// Makes the runs in threads.
fn runs<R: Files + Print + AllocGlobal + Clone + Drop + Threads + Wait + Sync>(
    rt: &R,
) -> io::Result<()> {
    let names = names_of(rt, ".threads")?;
    for name in names.as_slice() {
        let stated = bytes_of(rt, name.as_str(), ".threads")?;
        let told = threads::told(rt, stated.as_slice())?;
        println!(rt; "threads {name}: {told}")?;
    }
    Ok(())
}

/// Goes through the files of runs in which each call fails in turn.
fn sweeps<R: Files + Print + AllocGlobal + Clone + Drop + Threads + Wait + Sync>(
    rt: &R,
) -> io::Result<()> {
    let names = names_of(rt, ".faults")?;
    for name in names.as_slice() {
        let text = bytes_of(rt, name.as_str(), ".faults")?;
        let told = faults::judged(rt, text.as_slice())?;
        print!(rt; "faults {name}: {told}")?;
    }
    Ok(())
}
