//! What comes over a hub: whose packets an interface on it accepts, for whom they are, and how often.
#![tactic(auto)]

mod laws;

pub use laws::{copies_first_frames, delivers_on_hubs};
