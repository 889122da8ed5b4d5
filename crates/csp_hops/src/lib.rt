//! Next hops: a packet that an interface got from its lane is marked with the address of one, or not at all.
#![tactic(auto)]

mod addresses;
mod laws;

pub use addresses::hold_addresses;
pub use laws::marks_next_hops;
