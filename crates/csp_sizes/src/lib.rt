//! That a run of a generated scene is light: each of its packets and frames is so short that each entry weighs one.
#![tactic(auto)]

mod laws;

pub use laws::stays_below;
