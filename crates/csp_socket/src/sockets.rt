//! Sockets: ports that applications bound.

ghost use Rattle.std.specs.Prelude.{◌≡◌, ◌↔◌, ◌≤◌, ◌<◌, ℕ, Option, Some, None, OnOk, OnErr, IfSome};
ghost use Rattle.csp_socket.specs.Bound.{bound_none, owner_of, with_owner};

use csp_base::Port;
use std::marker::Model;
use thiserror::Error;

/// How many ports an application may bind: those from 0 up. Those above are the own ports of connections.
pub const BINDABLE_PORTS: usize = 48;

/// Why a port was not bound.
#[derive(Clone, Copy, Debug, Error)]
pub enum BindError {
    /// It is an own port of connections.
    #[error("the port is not one that can be bound")]
    NotBindable,
    /// It is bound already.
    #[error("the port is bound by application {owner}")]
    InUse {
        /// The application that bound it.
        owner: u8,
    },
}

/// The bound ports of a node: for each port the application that bound it, and the flags that a packet needs there.
#[derive(Drop)]
pub struct Sockets {
    owners: [Option<(u8, u8)>; BINDABLE_PORTS],
}

impl Model for Sockets {
    ghost use Rattle.std.specs.Prelude.{◌≡◌, length};
    ghost use Rattle.csp_socket.specs.declared.sockets.TheConstants.{BINDABLE_PORTS};
    ghost use Rattle.csp_socket.specs.Bound.{Bound};

    ghost Value = { Bound };

    ghost view = { λ s. s.owners };

    ghost invariant = { λ s. length s.owners ≡ BINDABLE_PORTS };
}

impl Sockets {
    /// A node's sockets before any port is bound.
    pub fn new() -> Sockets
        ensures { result ≡ bound_none }
    {
        Sockets {
            owners: [None; BINDABLE_PORTS],
        }
    }

    /// Binds a port for an application, where a packet needs these flags. A port that is refused stays as it was.
    pub fn bind(&mut self, app: u8, port: Port, need: u8) -> Result<(), BindError>
        ensures ok { OnOk result (self.new ≡ with_owner self.old port app need) }
        ensures free { OnOk result ((port < BINDABLE_PORTS) × (owner_of self.old port ≡ None)) }
        ensures not_bindable { (result ≡ Err BindError.NotBindable) ↔ (BINDABLE_PORTS ≤ port) }
        ensures in_use { (owner : ℕ) → (result ≡ Err (BindError.InUse owner)) ↔ ((flags : ℕ) × (owner_of self.old port ≡ Some (owner, flags))) }
        ensures err { OnErr result (self.new ≡ self.old) }
    {
        let number = port.get() as usize;
        let bound: &[Option<(u8, u8)>] = &self.owners;
        if number >= bound.len() {
            return Err(BindError::NotBindable);
        }
        if let Some((owner, _)) = bound[number] {
            return Err(BindError::InUse { owner });
        }
        self.owners[number] = Some((app, need));
        Ok(())
    }

    /// The application that bound a port, and the flags that a packet needs there; none where the port is not bound.
    pub fn owner(&self, port: Port) -> Option<(u8, u8)>
        ensures value { result ≡ owner_of self.now port }
        ensures bindable { IfSome result (λ _. port < BINDABLE_PORTS) }
    {
        let number = port.get() as usize;
        if number < self.owners.len() {
            self.owners[number]
        } else {
            None
        }
    }
}
