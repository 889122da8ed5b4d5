//! What the services answer.

ghost use Rattle.std.specs.Prelude.{◌≡◌, ◌<◌, ◌≤◌, ◌^◌, [], length, Ok};
ghost use Rattle.csp_cmp.specs.Reading.{decoded};
ghost use Rattle.csp_cmp.specs.Requests.{chunk_in};
ghost use Rattle.csp_cmp.specs.Replies.{ident_bytes};
ghost use Rattle.csp_route.specs.Routes.{IsWithin};
ghost use Rattle.csp_service.specs.Answers.{answered, outcome, rebooted, requested};
ghost use Rattle.csp_service.specs.Facts.{known};

use crate::Service;
use crate::clock::{seconds, tell_clock};
use crate::facts::{MEMORY, Names, Services};
use crate::memory::{peek, poke};
use crate::requests::{set_route, tell_stats};
use csp_base::Port;
use csp_cmp::{CmpError, CmpReply, CmpRequest, MAX_CHUNK, MAX_REPLY, decode, ident_reply};
use csp_log::Event;
use csp_route::Table;
use thiserror::Error;

/// The number that asks a node to start again.
pub const REBOOT: u32 = 0x8007_8007;

/// The number that asks a node to stop.
pub const SHUTDOWN: u32 = 0xD1E5_529A;

/// What comes of a request.
#[derive(Clone, Copy)]
pub enum Served {
    /// A reply was written.
    Reply,
    /// There is no reply; the node has this to report.
    Silent(Event),
    /// The request was refused, and nothing is changed.
    Refused(ServiceError),
    /// No service has this port.
    NoService,
}

/// Why a service refused a request.
#[derive(Clone, Copy, Debug, Error)]
pub enum ServiceError {
    /// It is no request of the management protocol.
    #[error("{0}")]
    Cmp(CmpError),
    /// The node has no interface of this name.
    #[error("the node has no such interface")]
    NoInterface,
    /// No node has this address, or the memory has no such bytes.
    #[error("there is no such address")]
    BadAddress,
    /// The routing table has no room.
    #[error("the routing table is full")]
    Full,
    /// It is not one of the numbers that ask a node to start again or to stop.
    #[error("the number asks for nothing")]
    BadMagic,
}

/// Answers a request that came to a port of the node of these names, at a time in milliseconds. A request may
/// change the routing table and what the services keep; one that is refused changes nothing. A reply is written
/// into `out`, in place of what stood there; without one `out` is left empty.
pub fn answer(
    port: Port,
    request: &[u8],
    names: &Names,
    routes: &mut Table,
    services: &mut Services,
    now: u64,
    out: &mut CmpReply,
) -> Served
    requires fits { port ≡ 1 → length request.now ≤ MAX_REPLY }
    requires now { now < 2 ^ 62 }
    ensures value { outcome result out.new.items (known names.now routes.new services.new) ≡ answered port request.now (known names.now routes.old services.old) now }
    ensures kept { (error : ServiceError) → result ≡ Served.Refused error → (routes.new ≡ routes.old) × (services.new ≡ services.old) }

    // What a router asks of its table.
    ensures known { IsWithin (length names.now.ifaces.items) routes.old → IsWithin (length names.now.ifaces.items) routes.new }
{
    out.clear();
    match Service::at(port) {
        Some(Service::Cmp) => answer_cmp(request, names, routes, services, now, out),
        Some(Service::Ping) => reply(request, out),
        Some(Service::FreeMemory) => reply(&(MEMORY as u32).to_be_bytes(), out),
        Some(Service::Reboot) => reboot(request),
        Some(Service::Uptime) => reply(&seconds(now).to_be_bytes(), out),
        None => Served::NoService,
    }
}

/// Answers a request of the management protocol.
fn answer_cmp(
    request: &[u8],
    names: &Names,
    routes: &mut Table,
    services: &mut Services,
    now: u64,
    out: &mut CmpReply,
) -> Served
    requires empty { out.old.items ≡ [] }
    requires now { now < 2 ^ 62 }
    ensures value { outcome result out.new.items (known names.now routes.new services.new) ≡ requested (decoded request.now) (known names.now routes.old services.old) now }
    ensures kept { (error : ServiceError) → result ≡ Served.Refused error → (routes.new ≡ routes.old) × (services.new ≡ services.old) }
    ensures known { IsWithin (length names.now.ifaces.items) routes.old → IsWithin (length names.now.ifaces.items) routes.new }
{
    match decode(request) {
        Ok(request) => serve(request, names, routes, services, now, out),
        Err(error) => Served::Refused(ServiceError::Cmp(error)),
    }
}

/// Does what a request of the management protocol asks for.
fn serve(
    request: CmpRequest,
    names: &Names,
    routes: &mut Table,
    services: &mut Services,
    now: u64,
    out: &mut CmpReply,
) -> Served
    requires few { chunk_in request ≤ MAX_CHUNK }
    requires empty { out.old.items ≡ [] }
    requires now { now < 2 ^ 62 }
    ensures value { outcome result out.new.items (known names.now routes.new services.new) ≡ requested (Ok request) (known names.now routes.old services.old) now }
    ensures kept { (error : ServiceError) → result ≡ Served.Refused error → (routes.new ≡ routes.old) × (services.new ≡ services.old) }
    ensures known { IsWithin (length names.now.ifaces.items) routes.old → IsWithin (length names.now.ifaces.items) routes.new }
{
    let ifaces = names.ifaces.as_slice();
    match request {
        CmpRequest::Ident => tell_name(names, out),
        CmpRequest::RouteSet { dest, via, iface } => {
            set_route(dest, via, iface, ifaces, routes, out)
        }
        CmpRequest::Stats { iface } => tell_stats(iface, ifaces, services, out),
        CmpRequest::Peek { addr, len } => peek(addr, len, services, out),
        CmpRequest::Poke { addr, bytes } => poke(addr, bytes, services, out),
        CmpRequest::Clock { sec, nsec } => tell_clock(sec, nsec, services, now, out),
    }
}

/// Tells who the node is.
fn tell_name(names: &Names, out: &mut CmpReply) -> Served
    requires empty { out.old.items ≡ [] }
    ensures served { result ≡ Served.Reply }
    ensures reply { out.new.items ≡ ident_bytes names.now.node.bytes }
{
    ident_reply(names.node.as_str(), out);
    Served::Reply
}

/// Replies with these bytes.
fn reply(bytes: &[u8], out: &mut CmpReply) -> Served
    requires empty { out.old.items ≡ [] }
    requires fits { length bytes.now ≤ MAX_REPLY }
    ensures served { result ≡ Served.Reply }
    ensures reply { out.new.items ≡ bytes.now }
{
    out.try_extend_from_slice(bytes).unwrap();
    Served::Reply
}

/// What comes of a request to start again or to stop.
fn reboot(request: &[u8]) -> Served
    ensures { result ≡ rebooted request.now }
{
    if request == REBOOT.to_be_bytes().as_slice() {
        Served::Silent(Event::Reboot)
    } else if request == SHUTDOWN.to_be_bytes().as_slice() {
        Served::Silent(Event::Shutdown)
    } else {
        Served::Refused(ServiceError::BadMagic)
    }
}
