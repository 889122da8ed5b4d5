//! The end of a network's run: its record is made, and every buffer is taken back.
#![tactic(auto)]

mod closing;
mod hands;
mod lanes;
mod parties;
mod passes;
mod queues;
mod retiring;
mod times;

pub use closing::close_fabric;
