//! The steps of a script.

use csp_base::{Addr, Port, Prio};

/// One step of an application's script, as it is read and added.
#[derive(Clone, Copy, Debug)]
pub enum Step<'a> {
    /// Takes a buffer from the pool and holds it. Where the pool is empty, that is noted.
    Take,
    /// Gives the buffer that it has held longest back to the pool.
    Give,
    /// Asks for a port, and for packets with all these flags alone.
    Bind {
        port: Port,
        need: u8,
    },
    /// Asks for a connection on a slot. `flags` are those of its packets; `from` is the own port that
    /// it wants.
    Connect {
        slot: u8,
        dest: Addr,
        port: Port,
        prio: Prio,
        flags: u8,
        from: Option<Port>,
    },
    /// Sends a packet of these bytes on a slot.
    Send {
        slot: u8,
        bytes: &'a [u8],
    },
    /// Sends so many packets of this length on a slot, one after the other. Packet `j`, from 0, has the
    /// bytes `(j + i) % 256`.
    Burst {
        slot: u8,
        count: u32,
        len: u16,
    },
    /// Sends a blob of this length on a slot, in pieces of this size. Byte `i` of the blob is `(49 + i) % 256`.
    Blob {
        slot: u8,
        len: u32,
        size: u16,
    },
    /// Sends a packet of this header word and these bytes as it is.
    Raw {
        header: u32,
        bytes: &'a [u8],
    },
    /// Waits for so many packets of a slot, at most so many rounds where `rounds` says so.
    Recv {
        slot: u8,
        count: u32,
        rounds: Option<u32>,
    },
    /// Waits for so many whole blobs of a slot, at most so many rounds where `rounds` says so. An application that
    /// has such a step makes blobs of the packets of its slot.
    Collect {
        slot: u8,
        count: u32,
        rounds: Option<u32>,
    },
    /// Asks for the end of a slot's connection.
    Close {
        slot: u8,
    },
    /// Waits for so many rounds.
    Wait {
        rounds: u32,
    },
}
