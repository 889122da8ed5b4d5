//! Large scenarios, made from one number: three nodes on two links, over which one application sends as many
//! packets to another as the number says, on a reliable connection, while the first link is at fault at frames
//! drawn from the number.
#![tactic(auto)]

mod faults;
mod lines;
mod scenario;

pub use faults::{FIRST_FRAME, GAPS, LEAST_GAP, PACKETS_PER_FAULT};
pub use scenario::{MAX_PACKETS, MAX_TEXT, text};
