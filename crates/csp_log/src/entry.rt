//! One entry of a log.

use crate::{AnswerShown, Events, OpShown};

/// What one turn of a party was: its moment, what was asked and answered, and what was told.
#[derive(Drop)]
pub struct Entry {
    /// The number of rounds completed before this one.
    pub time: u64,
    /// What the party asked.
    pub op: OpShown,
    /// What it was answered.
    pub answer: AnswerShown,
    /// What it reported.
    pub events: Events,
}
