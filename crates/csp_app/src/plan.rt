//! What a turn of an application is.

use csp_log::Note;

/// What a turn is, from its operation to the answer.
#[derive(Clone, Copy)]
pub enum AppPlan {
    /// Between two turns.
    Rest,
    /// The buffer of a packet that was popped is given back.
    Return,
    /// After a refused operation `Down` is popped once.
    Look,
    /// A `take` step takes a buffer.
    Take,
    /// A `give` step gives the buffer held longest.
    Give,
    /// A `give` step finds that no buffer is held.
    Skip,
    /// A step pushes its note.
    Ask(Note),
    /// A step looks for the answer to its note.
    Await,
    /// A step takes a buffer for its packet.
    Fill,
    /// A step pushes its packet.
    Push,
    /// A `recv` step finds its packets there at its start.
    Use {
        slot: u8,
        count: u32,
    },
    /// A `recv` step looks for a packet.
    Receive {
        slot: u8,
        count: u32,
        rounds: Option<u32>,
    },
    /// A `wait` step passes the time.
    Wait {
        rounds: u32,
    },
}
