//! Tables that are data: each file `NAME.table` of the folder that the program is run in has cases, a line or two
//! each, `WHAT IS ASKED => THE ANSWER`. The program works out what is asked and compares. One line a table says how
//! many cases it has, and after it stands each case that differs, with what came in its place.
#![tactic(auto)]

mod supply;
mod tables;

use csp_cases::judge_tables;
use std::io;
use tables::Tables;

fn main(rt: HostRuntime) -> io::Result<()> {
    judge_tables(&rt, &Tables)
}
