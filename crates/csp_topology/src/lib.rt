//! A scene's network, worked out once: its parties in order, each with all that its opening needs, the pool and the
//! queues of each node, its lanes with who puts into each and who gets, who puts into its inbox under
//! which mark, and the ends of each link.
#![tactic(auto)]

mod joint;
mod laws;
mod links;
mod opened;
mod opening;
mod parties;
mod plan;
mod topology;
mod wire;
mod wiring;
mod writers;

pub use laws::{
    counts_parties, joins_parties, names_ends_apart, names_parties_apart, orders_wires,
    puts_leaders_first, serves_parties, stays_home, wires_lanes,
};
pub use opened::{NewParty, NodeBuffers, end_parties, open_parties};
pub use opening::Opening;
pub use plan::NodePlan;
pub use topology::{MAX_PARTIES, Topology};
pub use wire::{Wire, WireEnd};
pub use writers::{Writer, mark_for};
