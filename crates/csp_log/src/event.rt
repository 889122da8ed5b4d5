//! What a party reports of one turn, for the record.

use crate::Why;
use arrayvec::ArrayVec;
use csp_base::Tag;
use csp_sfp::SfpError;

/// The most events of one turn.
pub const MAX_EVENTS: usize = 8;

/// The events of one turn, in order.
pub type Events = ArrayVec<Event, MAX_EVENTS>;

/// What a party reports. A `peer` is the node and the number of a flow. A `step` is that of an
/// application, from 1; `ordinal` counts the connections of a slot before this one.
#[derive(Clone, Copy, Default)]
pub enum Event {
    /// A `take` step found no buffer.
    TookEmpty {
        step: u32,
    },
    /// A payload was handed over on this slot's connection.
    Sent {
        slot: u8,
        ordinal: u32,
    },
    /// A payload was taken from this slot's connection.
    Took {
        slot: u8,
        ordinal: u32,
    },
    /// A blob of this slot's connection is whole by the packet that was taken: its length in bytes, and its CRC-32C.
    BlobTook {
        slot: u8,
        ordinal: u32,
        len: u32,
        crc: u32,
    },
    /// The packet that was taken is not the next piece of a blob, for this reason.
    BlobRefused {
        slot: u8,
        ordinal: u32,
        why: SfpError,
    },
    /// A step's request was refused.
    Refused {
        step: u32,
        why: Why,
    },
    /// A step that waits for packets gave up.
    GaveUp {
        step: u32,
    },
    /// A step that waits for packets of a slot went on, since the slot is down.
    SlotDown {
        step: u32,
    },
    /// A packet was discarded.
    Discarded(Discard),
    /// A packet was handed to a connection of the reliable transport, whose state was this.
    Handed {
        nth: u32,
        peer: Option<(u8, u32)>,
        tag: Option<Tag>,
        cur: u64,
        una: u64,
    },
    /// A connection is open: a plain one, or the `nth` of the reliable transport.
    Opened {
        app: u8,
        slot: u8,
        nth: Option<u32>,
        peer: Option<(u8, u32)>,
    },
    /// A transmission of this number began, with the pop of its packet from `Out`.
    Transmitted {
        serial: u64,
    },
    /// So many frames, or parts of a stream, were refused.
    Bad {
        count: u32,
    },
    /// A whole packet found no buffer.
    #[default]
    Starved,
    /// A whole packet found the inbox full.
    InboxFull,
    /// A packet that was to be sent has a payload longer than its link takes.
    TooBig,
    /// The node was asked to start again.
    Reboot,
    /// The node was asked to stop.
    Shutdown,
}

/// Why a packet was discarded.
#[derive(Clone, Copy)]
pub enum Discard {
    /// No route covers its destination.
    NoRoute,
    /// Its route leads back to where it came in.
    BackOut,
    /// It asks for what this node does not do.
    Refused,
    /// Its checksum is wrong or missing.
    CrcWrong,
    /// No application and no service has its port.
    NoSocket,
    /// The application that has its port has no free slot.
    NoSlot,
    /// It lacks a flag that its port needs.
    Required,
    /// Its head is malformed.
    Malformed,
    /// It is of the reliable transport, and its connection is not, or the other way round.
    Mixed,
    /// There is no such connection.
    NoConn,
    /// Its connection has no use for it.
    Stray,
    /// The queue that it was for was full.
    Full,
}
