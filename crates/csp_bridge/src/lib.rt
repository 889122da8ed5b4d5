//! The bridge between two links: a party that passes each packet on to the other side.
#![tactic(auto)]

mod bridge;
mod doing;
mod party;
mod turns;

pub use bridge::Bridge;
