//! How many packets passed a link changed, or were sent by nobody.

ghost use Rattle.std.specs.Prelude.{◌≡◌, ◌^◌, ◌<◌, ◌≤◌, false, length, slice_get, count_by, IfOk, OnErr};
ghost use Rattle.std.specs.List.{flat_map, filter_map};
ghost use Rattle.std.specs.Option.{option_and_then, option_map_or};
ghost use Rattle.csp_log.specs.Moving.{moved_in};
ghost use Rattle.csp_record.specs.Passed.{put_in, accepted_by, differs, passed};
ghost use Rattle.csp_record.specs.Table.{is_unlike};

use crate::transmissions::{Table, transmissions};
use crate::{PartyLog, Record, Who};
use csp_log::{Log, LoggedPacket, Moved, QueueId};
use std::alloc::{AllocError, Global};

/// Whether a packet has another header or payload than what was sent.
fn differs(packet: &LoggedPacket, sent: &LoggedPacket) -> bool
    ensures { result ≡ differs (Some sent.now) packet.now }
{
    packet.header() != sent.header() || packet.payload() != sent.payload()
}

/// Whether a packet differs from the transmission that its origin names, or has no origin that names one.
fn is_unlike(table: &Table, packet: &LoggedPacket) -> bool
    ensures { result ≡ is_unlike table.now packet.now }
{
    let Some(origin) = packet.trace().origin else {
        return true;
    };
    match table.get(&(origin.node, origin.iface, origin.serial)) {
        Some(sent) => differs(packet, sent),
        None => true,
    }
}

/// Whether this entry of an interface put such a packet into an inbox.
fn has_put(table: &Table, log: &Log, index: u64) -> bool
    requires { index < length log.now.entries }
    ensures { result ≡ option_map_or (is_unlike table.now) (option_and_then (λ e. put_in (moved_in e)) (slice_get log.now.entries index)) false }
{
    match log.moved(index) {
        Moved::Pushed(QueueId::Inbox, packet) => is_unlike(table, &packet),
        _ => false,
    }
}

/// How many such packets an interface put into an inbox.
fn count_in_log(table: &Table, log: &Log) -> u64
    ensures { result ≡ count_by (is_unlike table.now) (filter_map (λ e. put_in (moved_in e)) log.now.entries) }
{
    let mut count = 0;
    let mut index = log.next_deed(0);
    while index < log.len() {
        if has_put(table, log, index) {
            count += 1;
        }
        index = log.next_deed(index + 1);
    }
    count
}

/// How many such packets a party put into an inbox, where it is an interface.
fn count_by_party(table: &Table, party: &PartyLog) -> u64
    ensures { result ≡ count_by (is_unlike table.now) (accepted_by party.now) }
{
    match party.who {
        Who::Iface(_, _) => count_in_log(table, &party.log),
        Who::Router(_) | Who::Bridge(_) | Who::App(_, _) | Who::Link(_) => 0,
    }
}

/// How many such packets the interfaces among these parties put into inboxes. Memory is wanting exactly where
/// they are more than 64 bits count.
fn count_by_parties(table: &Table, parties: &[PartyLog]) -> Result<u64, AllocError>
    ensures ok { IfOk result (λ count. count ≡ count_by (is_unlike table.now) (flat_map accepted_by parties.now)) }
    ensures err { OnErr result (2 ^ 64 ≤ count_by (is_unlike table.now) (flat_map accepted_by parties.now)) }
{
    let mut count = 0u64;
    for party in parties {
        let Some(more) = count.checked_add(count_by_party(table, party)) else {
            return Err(AllocError);
        };
        count = more;
    }
    Ok(count)
}

/// How many packets that interfaces put into inboxes differ in header or payload from the transmission that
/// their origin names, or have no origin that names one. The transmission is the packet popped from an `Out` in
/// the first entry that shows it.
pub fn passed(alloc: Global, run: &Record) -> Result<u64, AllocError>
    ensures { IfOk result (λ count. count ≡ passed run.now) }
{
    let table = transmissions(alloc, run)?;
    count_by_parties(&table, run.parties.as_slice())
}
