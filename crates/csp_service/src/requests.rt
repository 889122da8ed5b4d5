//! Routes that are set, and counts that are told.

ghost use Rattle.std.specs.Prelude.{◌≡◌, ◌==◌, ◌≤◌, ◌<◌, [], length, IfSome, IfOk};
ghost use Rattle.std.specs.List.{position};
ghost use Rattle.std.specs.Str.{bytes_eq};
ghost use Rattle.csp_cmp.specs.declared.request.CmpRequest.TheVariants as request;
ghost use Rattle.csp_cmp.specs.Replies.{same_bytes};
ghost use Rattle.csp_route.specs.Routes.{IsWithin};
ghost use Rattle.csp_route.specs.Text.{names_of};
ghost use Rattle.csp_service.specs.Answers.{hop_of, iface_of, name_in, outcome, routed, row_asked, told_stats, with_routes, with_services};
ghost use Rattle.csp_service.specs.Facts.{PlainFacts};

use crate::facts::{IFACE_ROOM, Services};
use crate::{Served, ServiceError};
use csp_base::{Addr, Name};
use csp_cmp::{CmpReply, CmpRequest, NAME_LEN, same_reply, stats_reply};
use csp_route::{MAX_MASK, Row, Table};

/// The number that stands for no next hop.
pub const NO_HOP: u8 = 255;

/// Sets a route to one node.
pub(crate) fn set_route(
    dest: u8,
    via: u8,
    iface: [u8; NAME_LEN],
    ifaces: &[Name],
    routes: &mut Table,
    out: &mut CmpReply,
) -> Served
    requires empty { out.old.items ≡ [] }
    requires few { length ifaces.now ≤ IFACE_ROOM }
    ensures value { (facts : PlainFacts) → outcome result out.new.items (with_routes facts routes.new) ≡ routed (same_bytes (request.RouteSet dest via iface)) (row_asked dest via iface (names_of ifaces.now)) (with_routes facts routes.old) }
    ensures kept { (error : ServiceError) → result ≡ Served.Refused error → routes.new ≡ routes.old }
    ensures known { IsWithin (length ifaces.now) routes.old → IsWithin (length ifaces.now) routes.new }
{
    match row_asked(dest, via, iface, ifaces) {
        Ok(row) => match routes.set(row) {
            Ok(()) => {
                same_reply(&CmpRequest::RouteSet { dest, via, iface }, out);
                Served::Reply
            }
            Err(_) => Served::Refused(ServiceError::Full),
        },
        Err(error) => Served::Refused(error),
    }
}

/// The row that a request sets.
fn row_asked(dest: u8, via: u8, field: [u8; NAME_LEN], ifaces: &[Name]) -> Result<Row, ServiceError>
    requires { length ifaces.now ≤ IFACE_ROOM }
    ensures value { result ≡ row_asked dest via field (names_of ifaces.now) }
    ensures mask { IfOk result (λ row. row.mask ≤ MAX_MASK) }
    ensures known { IfOk result (λ row. row.iface < length ifaces.now) }
{
    let Some(addr) = Addr::new(dest) else {
        return Err(ServiceError::BadAddress);
    };
    let via = match via {
        NO_HOP => None,
        _ => match Addr::new(via) {
            Some(hop) => Some(hop),
            None => return Err(ServiceError::BadAddress),
        },
    };
    match iface_of(field, ifaces) {
        Some(iface) => Ok(Row {
            addr,
            mask: MAX_MASK,
            iface: iface as u8,
            via,
        }),
        None => Err(ServiceError::NoInterface),
    }
}

/// Tells what an interface counted.
pub(crate) fn tell_stats(
    iface: [u8; NAME_LEN],
    ifaces: &[Name],
    services: &Services,
    out: &mut CmpReply,
) -> Served
    requires empty { out.old.items ≡ [] }
    requires few { length ifaces.now ≤ IFACE_ROOM }
    ensures { (facts : PlainFacts) → outcome result out.new.items (with_services facts services.now) ≡ told_stats iface (iface_of iface (names_of ifaces.now)) (with_services facts services.now) }
{
    match iface_of(iface, ifaces) {
        Some(number) => {
            stats_reply(iface, &services.stats[number].counts, out);
            Served::Reply
        }
        None => Served::Refused(ServiceError::NoInterface),
    }
}

/// The number of the first interface with the name in a field.
fn iface_of(field: [u8; NAME_LEN], ifaces: &[Name]) -> Option<usize>
    ensures value { result ≡ iface_of field (names_of ifaces.now) }
    ensures inside { IfSome result (λ place. place < length ifaces.now) }
{
    name_place(ifaces, name_in(&field))
}

/// The name in a field: it ends at its first zero byte.
fn name_in(field: &[u8]) -> &[u8]
    ensures { result.now ≡ name_in field.now }
{
    match zero_place(field) {
        Some(end) => &field[..end],
        None => field,
    }
}

/// The place of the first zero byte.
fn zero_place(field: &[u8]) -> Option<usize>
    ensures value { result ≡ position (λ byte. byte == 0) field.now }
    ensures inside { IfSome result (λ place. place < length field.now) }
{
    field.iter().position(|byte| *byte == 0)
}

/// The place of the first of these names that is the word.
fn name_place(names: &[Name], word: &[u8]) -> Option<usize>
    ensures value { result ≡ position (λ name. bytes_eq name.bytes word.now) names.now }
    ensures inside { IfSome result (λ place. place < length names.now) }
{
    names.iter().position(|name| name.as_bytes() == word)
}
