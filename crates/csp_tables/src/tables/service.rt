//! The services of a node `payload` with the interfaces `bus` and `radio` on a new table of routes: `service STEP;
//! STEP ..`, where a step is `PORT REQUEST`, or `@TIME` in milliseconds, or `route PREFIX` for a row that leads to
//! the bus. And requests as they are read: `cmp REQUEST`.

use arrayvec::ArrayVec;
use csp_base::{Addr, Name, Port};
use csp_cases::{Case, Steps, stepped};
use csp_cmp::{CmpReply, MAX_REPLY, decode};
use csp_log::Event;
use csp_route::{Row, Table};
use csp_service::{Names, Served, ServiceError, Services};

/// Tells a request as it is read, or why it is none.
pub(super) fn request(case: &mut Case) {
    let bytes = case.bytes();
    match decode(bytes.as_slice()) {
        Ok(request) => case.tell_shown(&request),
        Err(error) => case.tell_shown(&error),
    }
}

/// A node with its services, at a time.
#[derive(Drop)]
struct Node {
    names: Names,
    routes: Table,
    services: Services,
    time: u32,
}

/// Tells what comes of each step.
pub(super) fn answer(case: &mut Case) {
    match (names(), Services::open(case.alloc())) {
        (Some(names), Ok(services)) => {
            let mut node = Node {
                names,
                routes: Table::new(),
                services,
                time: 0,
            };
            stepped(case, &mut node);
        }
        _ => case.lacks_memory(),
    }
}

/// The names of the node and of its interfaces.
fn names() -> Option<Names> {
    let mut ifaces = ArrayVec::new();
    ifaces.push(Name::from("bus").ok()?);
    ifaces.push(Name::from("radio").ok()?);
    let node = Name::from("payload").ok()?;
    Some(Names { node, ifaces })
}

impl Steps for Node {
    fn step(&mut self, case: &mut Case) {
        let first = case.word();
        if let Some(time) = first.strip_prefix("@") {
            self.time = case.number_of(time);
            case.tell("later");
        } else if first == "route" {
            self.set(case);
        } else {
            let number = case.small_of(first);
            match Port::new(number) {
                Some(port) => self.asked(case, port),
                None => case.misread(),
            }
        }
    }
}

impl Node {
    /// Adds a row that leads to the first interface.
    fn set(&mut self, case: &mut Case) {
        let word = case.word();
        let (addr, mask) = case.halves(word, "/");
        let (addr, mask) = (case.small_of(addr), case.small_of(mask));
        match Addr::new(addr) {
            Some(addr) if mask <= 5 => {
                let row = Row {
                    addr,
                    mask,
                    iface: 0,
                    via: None,
                };
                let done = self.routes.set(row);
                case.tell(if done.is_ok() { "set" } else { "full" });
            }
            _ => case.misread(),
        }
    }

    /// Tells what comes of a request.
    fn asked(&mut self, case: &mut Case, port: Port) {
        let request = case.bytes_within(MAX_REPLY);
        let mut out = CmpReply::new();
        let served = csp_service::answer(
            port,
            request.as_slice(),
            &self.names,
            &mut self.routes,
            &mut self.services,
            u64::from(self.time),
            &mut out,
        );
        served_text(case, served, out.as_slice());
    }
}

/// Tells what came of a request.
fn served_text(case: &mut Case, served: Served, reply: &[u8]) {
    match served {
        Served::Reply => {
            case.tell("reply ");
            case.tell_bytes(reply);
        }
        Served::Silent(Event::Reboot) => case.tell("silent Reboot"),
        Served::Silent(Event::Shutdown) => case.tell("silent Shutdown"),
        Served::Silent(_) => case.misread(),
        Served::Refused(ServiceError::Cmp(error)) => write!(case, "refused {error:?}"),
        Served::Refused(error) => write!(case, "refused {error:?}"),
        Served::NoService => case.tell("no service"),
    }
}
