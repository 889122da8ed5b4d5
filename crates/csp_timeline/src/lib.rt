//! The timeline of a run: what happened in it, line by line.
#![tactic(auto)]

mod labels;
mod reports;
mod text;
mod words;

pub use labels::from_word;
pub use text::{LABEL_WIDTH, TIME_WIDTH, VERSION, timeline};
