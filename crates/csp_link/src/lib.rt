//! A link between two interfaces: a party that carries frames from each end to the other, and does to
//! them what its plan of faults says.
#![tactic(auto)]

mod direction;
mod doing;
mod fates;
mod fault;
mod held;
mod laws;
mod link;
mod party;
mod way;

pub use fault::{Fault, FaultKind, MAX_REPEATS};
pub use held::{LINK_HOLDS, MOST_HELD};
pub use laws::applies_its_plan;
pub use link::Link;
pub use way::Way;
