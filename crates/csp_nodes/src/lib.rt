//! The lists of all nodes as one deck: what a party asks goes to the lists of its own node, and what
//! a link asks to those of the nodes at its ends.
#![tactic(auto)]

mod decks;
mod emptied;
mod laws;
mod node_deck;

pub use decks::Decks;
pub use emptied::Emptied;
pub use laws::{conserves, keeps_shape};
