//! What a log keeps of an entry: a line, and a row where there is more to it than a line says.

use crate::{Note, QueueId};
use csp_buffer::{BriefTrail, Trail};

/// The most bytes of a line.
const MAX_LINE: usize = 8;

/// The most bytes of a row.
const MAX_LOG_ROW: usize = 88;

/// The most bytes of a kept row.
const MAX_KEPT_ROW: usize = 56;

const _: () = prove!(size_of::<Line>() <= MAX_LINE);

const _: () = prove!(size_of::<LogRow>() <= MAX_LOG_ROW);

const _: () = prove!(size_of::<KeptRow>() <= MAX_KEPT_ROW);

/// What a packet is besides its payload and its trace.
#[derive(Clone, Copy)]
pub struct PacketHead {
    pub header: u32,
    pub number: u16,
}

/// What an item is besides its bytes and its trace.
#[derive(Clone, Copy)]
pub enum ItemHead {
    Packet { mark: u8, packet: PacketHead },
    Frame { can: Option<u32> },
    Note(Note),
}

/// An operation with its answer, but for the bytes and the trace of the one packet or frame in them. What
/// comes back is what was handed in, so it is kept once.
#[derive(Clone, Copy)]
pub enum Deed {
    Rested,
    Took(PacketHead),
    FoundNoBuffer,
    Gave(PacketHead),
    FoundPoolFull(PacketHead),
    Pushed(QueueId, ItemHead),
    FoundFull(QueueId, ItemHead),
    Popped(QueueId, ItemHead),
    FoundEmpty(QueueId),
}

/// One entry of a log: all of it, where nothing was carried or reported and its time is of 32 bits, or
/// the place of its row.
#[derive(Clone, Copy)]
pub enum Line {
    Rested { time: u32 },
    FoundNoBuffer { time: u32 },
    FoundEmpty { queue: QueueId, time: u32 },
    Kept { row: u32 },
}

/// An entry that a line can't say by itself: its bytes and events stand in the log's lists.
#[derive(Clone, Copy)]
pub struct LogRow {
    pub time: u64,
    pub first_byte: usize,
    pub first_event: usize,
    pub bytes: u16,
    pub events: u8,
    pub deed: Deed,
    pub trail: Trail,
}

/// What is kept of a row: all of it, where its numbers are of 32 bits, or its place in a list of rows.
#[derive(Clone, Copy)]
pub enum KeptRow {
    Brief {
        events: u8,
        bytes: u16,
        time: u32,
        first_byte: u32,
        first_event: u32,
        deed: Deed,
        trail: BriefTrail,
    },
    Wide {
        place: usize,
    },
}
