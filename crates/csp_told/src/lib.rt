//! Ordinary runs, as the text of a report tells of them: what its lines say of the numbers that the transmissions of a bus use up, and
//! how it ends.
#![tactic(auto)]

mod laws;

pub use laws::{ends_unchanged, ends_undisturbed, within_by_report};
