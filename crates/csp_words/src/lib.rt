//! The words of the command line, a small exact grammar: `sim`; `run`, also with the number of workers; `gen N` with N
//! from 1 to the most packets of a generated scenario; and `tap`, also with `--header`.
#![tactic(auto)]

mod grammar;
mod words;

pub use grammar::{Command, DEFAULT_WORKERS, MAX_WORKERS, WordsError};
pub use words::command;
