//! Slots and ports of a node with four applications: `ports STEP; STEP ..`, where a step is one of
//! `open APP SLOT NODE PORT [OWN]`, `incoming APP PEER PORT OWN`, `find PEER PORT OWN`, `free APP SLOT`,
//! `bind APP PORT FLAGS`, `owner PORT`.

ghost use Rattle.std.specs.Prelude.{◌≡◌};

use csp_base::Seat;
use csp_cases::{Case, Steps, stepped};
use csp_conn::{Connection, Conns, OpenError};
use csp_socket::{BindError, Sockets};

/// The slots and the bound ports of a node.
#[derive(Drop)]
struct Ports {
    conns: Conns,
    sockets: Sockets,
    ghost apps: { conns.apps ≡ 4 },
}

/// Tells what comes of each step.
pub(super) fn answer(case: &mut Case) {
    let mut ports = Ports {
        conns: Conns::new(4),
        sockets: Sockets::new(),
    };
    stepped(case, &mut ports);
}

impl Steps for Ports {
    fn step(&mut self, case: &mut Case) {
        match case.word() {
            "open" => self.open(case),
            "incoming" => self.incoming(case),
            "find" => self.find(case),
            "free" => self.free(case),
            "bind" => self.bind(case),
            "owner" => self.owner(case),
            _ => case.misread(),
        }
    }
}

impl Ports {
    /// Tells the own port of a connection, or why there is none.
    fn open(&mut self, case: &mut Case) {
        let (app, slot) = (case.below(4), case.below(4));
        let (node, port) = (case.addr(), case.port());
        let from = if case.has_more() {
            Some(case.port())
        } else {
            None
        };
        match self.conns.open(Seat { app, slot }, node, port, from) {
            Ok(own) => case.tell_number(u64::from(own.get())),
            Err(OpenError::Busy) => case.tell("busy"),
            Err(OpenError::PortBusy) => case.tell("port busy"),
        }
    }

    /// Tells the slot of a connection that a packet opens.
    fn incoming(&mut self, case: &mut Case) {
        let app = case.below(4);
        match self.conns.incoming(app, connection(case)) {
            Ok(seat) => case.tell_number(u64::from(seat.slot)),
            Err(_) => case.tell("no slot"),
        }
    }

    /// Tells the application and the slot of a connection.
    fn find(&self, case: &mut Case) {
        match self.conns.find(connection(case)) {
            Some(Seat { app, slot }) => write!(case, "{app} {slot}"),
            None => case.tell("none"),
        }
    }

    /// Frees a slot.
    fn free(&mut self, case: &mut Case) {
        let (app, slot) = (case.below(4), case.below(4));
        self.conns.free(Seat { app, slot });
        case.tell("ok");
    }

    /// Tells who has a bound port, and which flags it wants.
    fn owner(&self, case: &mut Case) {
        match self.sockets.owner(case.port()) {
            Some((app, flags)) => write!(case, "{app} {flags}"),
            None => case.tell("none"),
        }
    }

    /// Binds a port.
    fn bind(&mut self, case: &mut Case) {
        let (app, port, flags) = (case.small(), case.port(), case.small());
        match self.sockets.bind(app, port, flags) {
            Ok(()) => case.tell("ok"),
            Err(BindError::NotBindable) => case.tell("not bindable"),
            Err(BindError::InUse { owner }) => write!(case, "in use by {owner}"),
        }
    }
}

/// Reads a connection: its peer, the port there, and the own port.
fn connection(case: &mut Case) -> Connection {
    Connection {
        peer: case.addr(),
        peer_port: case.port(),
        own_port: case.port(),
    }
}
