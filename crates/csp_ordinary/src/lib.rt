//! Ordinary runs: what a record counts none of where no link or hub damaged a frame in a way that could pass unnoticed, no bus wore out its
//! numbers, and no two interfaces of a hub sent packets of one source.
#![tactic(auto)]

mod laws;
mod words;

pub use laws::{apart_without_hubs, arrives_as_sent, passes_nothing, undamaged_without_flips};
pub use words::hold_words;
