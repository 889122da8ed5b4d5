//! That no number of a buffer is lost or made, as a law over records: at the end of a run each number of each node is held by just one
//! place, once.
#![tactic(auto)]

mod laws;

pub use laws::{conserves_numbers, keeps_numbers};
