//! Fragments on a CAN bus: a packet cut into frames of at most 8 data bytes, and put together again.
//! The layout of identifiers and frames is this project's profile.
#![tactic(auto)]

mod answers;
mod assembly;
mod cutter;
mod cutting;
mod frames;
mod identifiers;
mod partials;
mod reassembly;

pub use answers::{CanAnswer, CanEvent};
pub use cutter::Fragments;
pub use cutting::fragments;
pub use frames::{CanFrame, MAX_DATA};
pub use identifiers::{Identifier, Key, Kind};
pub use partials::{GIVE_UP, MAX_PARTIALS};
pub use reassembly::Reassembly;
