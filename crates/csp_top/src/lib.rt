//! The run of a scenario, from the program's words and the scenario's bytes to the bytes of its report, the line
//! on standard error and the exit status.
#![tactic(auto)]

mod command;
mod generation;
mod laws;
mod numbers;
mod saying;
mod simulation;
mod tapping;
mod threads;

pub use command::csp_main;
pub use csp_bench::{LimitKind, MAX_SCENARIO, Status, own_words};
pub use laws::{stays_causal, stays_reliable, stays_within_window, tells_reliable_prefix};
pub use saying::say;
pub use simulation::sim_main;
