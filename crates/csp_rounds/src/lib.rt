//! Rounds that threads share out: a list of workers is cut into parts, and in a round each part is done by a function
//! of its own, in a thread of its own where one can be made. What a round leaves of each worker is what that worker
//! promises, whatever the others do meanwhile.
#![tactic(auto)]

mod gate;
mod order;
mod parts;
mod worker;

pub use gate::{Gate, OpenGate};
pub use order::OrderGate;
pub use parts::rounds;
pub use worker::Worker;
