//! What the end of a network's run tells of its posts, and that with it each buffer of each node is in just one place. The record of
//! a network's run is consistent with its scene.
#![tactic(auto)]

mod buffers;
mod laws;

pub use buffers::returns_all;
pub use laws::{closes_causal, closes_consistent, closes_reached, closes_whole};
