//! The turns of a round, and the limit of logs.

/// How many turns each party has in a round.
pub const TURNS_PER_ROUND: usize = 8;

/// What the entries of all logs together may weigh before a run stops: each weighs one, and more where it shows many
/// bytes.
pub const MAX_ENTRIES: u64 = 4_000_000;
