//! What an application asks for when it asks for a connection.

use csp_base::{Addr, Port, Prio, Seat};

/// A connection that an application asks for.
#[derive(Clone, Copy)]
pub struct Request {
    /// The seat that it is to have.
    pub seat: Seat,
    /// The node at its other end.
    pub dest: Addr,
    /// The port there.
    pub port: Port,
    /// The priority of its packets.
    pub prio: Prio,
    /// Their flags.
    pub flags: u8,
    /// The own port that is asked for.
    pub from: Option<Port>,
}
