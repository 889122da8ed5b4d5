//! Where a reader is in its stream, and its room.

use csp_base::MAX_PAYLOAD;

/// Room for one byte more than the longest piece that is a packet anywhere, so that a longer piece shows.
pub const ROOM: usize = MAX_PAYLOAD + 9;

/// Where a reader is in its stream.
#[derive(Clone, Copy)]
pub enum Stage {
    /// No FEND has come.
    Outside,
    /// A FEND came last.
    Start,
    /// In a piece.
    Plain,
    /// In a piece, after a FESC.
    Escape,
}
