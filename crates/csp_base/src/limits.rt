//! The sizes that every contract and limit above names in place of a figure.

/// The most bytes that a packet's payload has, with a transport head and a checksum in it.
pub const MAX_PAYLOAD: usize = 2_042;

/// The most bytes that one frame on a link has: a KISS frame whose every byte is escaped, which is a FEND, a
/// zero and a FEND, and two bytes for each of the header's 4, the payload's, and the checksum's 4.
pub const MAX_FRAME: usize = 3 + 2 * (4 + MAX_PAYLOAD + 4);

/// The most buffers that one node has.
pub const MAX_BUFFERS: u16 = 1_024;

/// The most applications that one node has.
pub const MAX_APPS: usize = 4;

/// How many slots for connections each application has.
pub const SLOTS: usize = 4;

/// The slots of as many applications as there can be.
pub const ALL_SLOTS: usize = 16;

const _: () = prove!(ALL_SLOTS == MAX_APPS * SLOTS);
