//! What applications ask of their router besides packets, and what it answers.

use csp_base::{Addr, Port, Prio};

/// A request of an application, or what the router answers or reports.
#[derive(Clone, Copy)]
pub enum Note {
    /// The application asks for a port, and for packets with all these flags alone.
    Bind {
        port: Port,
        need: u8,
    },
    /// It asks for a connection on a slot. `flags` are those of its packets; `from` is the own port
    /// that it wants.
    Connect {
        slot: u8,
        dest: Addr,
        port: Port,
        prio: Prio,
        flags: u8,
        from: Option<Port>,
    },
    /// It asks for the end of the slot's connection.
    Close {
        slot: u8,
    },
    /// The port is bound.
    Bound,
    /// The slot's connection is open.
    Connected {
        slot: u8,
    },
    /// The port or connection is refused.
    Refused {
        why: Why,
    },
    /// The slot is free again.
    Closed {
        slot: u8,
    },
    /// The slot's connection was ended by its peer or by a timeout.
    Down {
        slot: u8,
    },
}

/// Why a port or a connection is refused.
#[derive(Clone, Copy)]
pub enum Why {
    /// Another application has the port.
    InUse,
    /// The port is not one that can be bound.
    NotBindable,
    /// The slot is in use.
    Busy,
    /// The own port that was asked for is in use to that destination.
    PortBusy,
    /// The peer did not answer in time.
    Timeout,
    /// The peer refused.
    Reset,
}
