//! What a slot of an application has.

ghost use Rattle.std.specs.Prelude.{◌≡◌, ◌↔◌, IsTrue};
ghost use Rattle.csp_conn.specs.Slots.{is_free, has_port, is_between};

use csp_base::{Addr, Port};

/// Between whom a connection is: the other node, the port there, and the port here.
#[derive(Clone, Copy, PartialEq, Eq)]
pub struct Connection {
    pub peer: Addr,
    pub peer_port: Port,
    pub own_port: Port,
}

/// What a slot has. One that is held, or has a connection, is in use.
#[derive(Clone, Copy, Default)]
pub enum Slot {
    /// Nothing.
    #[default]
    Free,
    /// No addresses and no ports: an application closed it while it was free, and was not answered yet.
    Held,
    /// A connection.
    Open(Connection),
}

impl Slot {
    /// Whether it is free.
    pub fn is_free(&self) -> bool
        ensures { result ≡ is_free self.now }
    {
        match self {
            Slot::Free => true,
            Slot::Held | Slot::Open(_) => false,
        }
    }

    /// Whether it has a connection to this node that has this port here.
    pub fn has_port(&self, dest: Addr, port: Port) -> bool
        ensures { result ≡ has_port dest port self.now }
    {
        match self {
            Slot::Free | Slot::Held => false,
            Slot::Open(connection) => connection.peer == dest && connection.own_port == port,
        }
    }

    /// Whether it has this connection.
    pub fn is_between(&self, connection: Connection) -> bool
        ensures { result ≡ is_between connection self.now }
    {
        match self {
            Slot::Free | Slot::Held => false,
            Slot::Open(other) => *other == connection,
        }
    }
}
