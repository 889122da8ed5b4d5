//! What the words say, or why they say nothing.

use thiserror::Error;

/// The most workers that a run may have.
pub const MAX_WORKERS: u32 = 8;

/// So many workers has a run where the words don't say how many.
pub const DEFAULT_WORKERS: u32 = 4;

/// A command of the program.
#[derive(Clone, Copy)]
pub enum Command {
    /// To run a scenario by its schedule: `sim`.
    Sim,
    /// To run a scenario by rounds, in threads: `run`, `run --workers N` or `run --workers=N`.
    Run {
        /// How many workers share out the parties, 1 to `MAX_WORKERS`.
        workers: u32,
    },
    /// To make a scenario, run it and sum its report up: `gen N`.
    Gen {
        /// How many packets it sends, 1 to `csp_gen::MAX_PACKETS`.
        packets: u32,
    },
    /// To tell what a captured KISS stream holds: `tap`, or `tap --header`.
    Tap {
        /// Whether the CRC of a frame covers the header.
        cover: bool,
    },
}

/// Why words are no command.
#[derive(Clone, Copy, Debug, Error)]
pub enum WordsError {
    /// They are outside the grammar.
    #[error("the words are no command")]
    Grammar,
}
