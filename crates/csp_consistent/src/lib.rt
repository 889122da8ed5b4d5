//! What ties the logs of a run together, whatever the order of its turns: a record that is consistent with its scene, and what follows
//! from that alone.
#![tactic(auto)]

mod laws;
mod queues;

pub use laws::{applies_plans, keeps_promises, names_origins, spreads_by_plans};
pub use queues::use_their_own;
