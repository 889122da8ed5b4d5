//! The network of a scene, whose parties threads turn: its opening, its meetings and its end; and a run of it, round by round.
#![tactic(auto)]

mod laws;
mod logs;
mod network;
mod running;

pub use network::Network;
pub use running::run;
