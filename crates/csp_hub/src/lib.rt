//! A hub: a CAN bus of two to eight interfaces, as one party. What one of them sends goes to every other, and the hub does
//! to it what its plan of faults says.
#![tactic(auto)]

mod doing;
mod end;
mod fates;
mod held;
mod hub;
mod laws;
mod party;
mod spread;

pub use hub::{Hub, MAX_ENDS, MIN_ENDS};
pub use laws::applies_its_plan;
