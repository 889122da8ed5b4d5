//! The parties of a node as one type, for the worlds and networks above.
#![tactic(auto)]

mod any;

pub use any::AnyParty;
