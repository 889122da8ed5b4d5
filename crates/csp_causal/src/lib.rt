//! Cause before effect in a record: what an application and its router have got of each other was put before.
#![tactic(auto)]

mod laws;

pub use laws::grows_causal;
