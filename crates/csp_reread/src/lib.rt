//! That what is taken out of the record of a run is read again as what was sent, as laws.
#![tactic(auto)]

mod laws;

pub use laws::reads_what_was_sent;
