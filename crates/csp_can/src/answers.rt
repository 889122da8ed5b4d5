//! What a listener answers to a frame.

use arrayvec::ArrayVec;
use csp_base::{MAX_PAYLOAD, Trace};

/// The answer to one frame.
#[derive(Drop)]
pub struct CanAnswer {
    /// A BEGIN frame ended a partial packet of its own key.
    pub restarted: bool,
    pub event: CanEvent,
}

impl CanAnswer {
    ghost use Rattle.std.specs.Prelude.{◌≡◌, false};

    /// The answer to a frame that ended no partial packet by a new BEGIN.
    pub(crate) fn plain(event: CanEvent) -> CanAnswer
        ensures { result ≡ record { restarted = false; event = event } }
    {
        CanAnswer {
            restarted: false,
            event,
        }
    }
}

/// What a frame made of the partial packet of its key. All but `Part` and `Whole` are refusals.
#[derive(Drop)]
pub enum CanEvent {
    /// The packet goes on: frames are still to come.
    Part,
    /// The packet is whole. Its trace is that of its BEGIN frame.
    Whole {
        header: u32,
        payload: ArrayVec<u8, MAX_PAYLOAD>,
        trace: Trace,
    },
    /// A MORE frame without a partial packet of its key.
    NoBegin,
    /// A BEGIN frame too short for header and length. All else is left.
    ShortBegin,
    /// A MORE frame that isn't the next one. The partial packet is dropped.
    BadRemain,
    /// More payload bytes than the length says. The partial packet is dropped.
    TooMuch,
    /// A BEGIN frame with a length over that of the longest packet. All else is left.
    TooLong,
    /// A BEGIN frame of a new key where the most partial packets stand. All else is left.
    NoRoom,
}
