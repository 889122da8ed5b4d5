//! The packets of a record's transmissions, to be looked up by what an origin names.

ghost use Rattle.std.specs.Prelude.{◌≡◌, ◌==◌, ◌&&◌, ◌<◌, if◌then◌else◌, None, Some, [], length, slice_get, OnOk, IfOk};
ghost use Rattle.std.specs.List.{filter_map, list_any};
ghost use Rattle.std.specs.Option.{option_and_then};
ghost use Rattle.csp_base.specs.declared.traces.Origin.{Origin as Named};
ghost use Rattle.csp_record.specs.Table.{named_in, Adds};
ghost use Rattle.csp_record.specs.Transmissions.{is_beginning, shown_in, iface_entries, transmission};
ghost use Rattle.csp_log.specs.Who.{is_iface};

use crate::{PartyLog, Record, Who};
use csp_log::{Event, Log, LoggedPacket, Moved, QueueId};
use std::alloc::{AllocError, Global};
use std::collections::BTreeMap;

/// The packet of each transmission, borrowed from a record, by node, interface and serial.
pub(crate) type Table<'a> = BTreeMap<(u8, u8, u64), LoggedPacket<'a>, Global>;

/// Adds the packet of this transmission, unless the table has one.
fn add<'a>(
    table: &mut Table<'a>,
    node: u8,
    iface: u8,
    serial: u64,
    packet: &LoggedPacket<'a>,
) -> Result<(), AllocError>
    ensures { OnOk result (Adds table.old table.new (λ n i s. if n == node && i == iface && s == serial then Some packet.now else None)) }
{
    let key = (node, iface, serial);
    if !table.contains_key(&key) {
        table.insert(key, packet.again())?;
    }
    Ok(())
}

/// Adds the packet, where this event tells that a transmission of this interface began.
fn add_event<'a>(
    table: &mut Table<'a>,
    node: u8,
    iface: u8,
    packet: &LoggedPacket<'a>,
    event: Event,
) -> Result<(), AllocError>
    ensures { OnOk result (Adds table.old table.new (λ n i s. if n == node && i == iface && is_beginning s event then Some packet.now else None)) }
{
    match event {
        Event::Transmitted { serial } => add(table, node, iface, serial, packet),
        _ => Ok(()),
    }
}

/// Adds the packet for each transmission of this interface that these events tell the beginning of.
fn add_begun<'a>(
    table: &mut Table<'a>,
    node: u8,
    iface: u8,
    packet: &LoggedPacket<'a>,
    events: &[Event],
) -> Result<(), AllocError>
    ensures { OnOk result (Adds table.old table.new (λ n i s. if n == node && i == iface && list_any (is_beginning s) events.now then Some packet.now else None)) }
{
    for event in events {
        add_event(table, node, iface, packet, *event)?;
    }
    Ok(())
}

/// Adds what one entry of this interface shows.
fn add_entry<'a>(
    table: &mut Table<'a>,
    node: u8,
    iface: u8,
    log: &'a Log,
    index: u64,
) -> Result<(), AllocError>
    requires { index < length log.now.entries }
    ensures { OnOk result (Adds table.old table.new (λ n i s. if n == node && i == iface then option_and_then (shown_in s) (slice_get log.now.entries index) else None)) }
{
    match log.moved(index) {
        Moved::Popped(QueueId::Out(_), packet) => {
            add_begun(table, node, iface, &packet, log.events(index))
        }
        _ => Ok(()),
    }
}

/// Adds what the entries of this interface show.
fn add_log<'a>(table: &mut Table<'a>, node: u8, iface: u8, log: &'a Log) -> Result<(), AllocError>
    ensures { OnOk result (Adds table.old table.new (λ n i s. if n == node && i == iface then slice_get (filter_map (shown_in s) log.now.entries) 0 else None)) }
{
    let mut index = log.next_deed(0);
    while index < log.len() {
        add_entry(table, node, iface, log, index)?;
        index = log.next_deed(index + 1);
    }
    Ok(())
}

/// Adds what the entries of a party show, where it is an interface.
fn add_party<'a>(table: &mut Table<'a>, party: &'a PartyLog) -> Result<(), AllocError>
    ensures { OnOk result (Adds table.old table.new (λ n i s. slice_get (filter_map (shown_in s) (if is_iface n i party.now.who then party.now.entries else [])) 0)) }
{
    match party.who {
        Who::Iface(node, iface) => add_log(table, node, iface, &party.log),
        Who::Router(_) | Who::Bridge(_) | Who::App(_, _) | Who::Link(_) => Ok(()),
    }
}

/// Adds what the entries of these parties show.
fn add_parties<'a>(table: &mut Table<'a>, parties: &'a [PartyLog]) -> Result<(), AllocError>
    ensures { OnOk result (Adds table.old table.new (λ n i s. slice_get (filter_map (shown_in s) (iface_entries parties.now n i)) 0)) }
{
    for party in parties {
        add_party(table, party)?;
    }
    Ok(())
}

/// The packet of each transmission that a record shows.
pub(crate) fn transmissions<'a>(alloc: Global, run: &'a Record) -> Result<Table<'a>, AllocError>
    ensures { IfOk result (λ table. (origin : Named) → named_in table origin ≡ transmission run.now origin) }
{
    let mut table = BTreeMap::new(alloc);
    add_parties(&mut table, run.parties.as_slice())?;
    Ok(table)
}
