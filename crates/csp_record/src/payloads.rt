//! What an application sent and took on its connections, borrowed from a log.

ghost use Rattle.std.specs.Prelude.{◌≡◌, ◌==◌, ◌&&◌, ◌++◌, ◌∷◌, ◌<◌, if◌then◌else◌, ℕ, [], get_or, length, slice_get, unwrap_or, OnOk, IfOk};
ghost use Rattle.std.specs.List.{flat_map};
ghost use Rattle.std.specs.Option.{option_map, option_map_or};
ghost use Rattle.csp_base.specs.Seat.{seat};
ghost use Rattle.csp_record.specs.Payloads.{leads, carried, is_on, payloads_in, payloads, sent, took};
ghost use Rattle.csp_record.specs.Traffic.{payloads_on, Gains};

use crate::ends::Ends;
use csp_log::{Event, Log, Moved, QueueId};
use std::alloc::{AllocError, Global};
use std::collections::BTreeMap;
use std::marker::Model;

/// Which way payloads go.
#[derive(Clone, Copy)]
pub enum Transfer {
    /// From an application to its router.
    Sent,
    /// From the router to an application.
    Took,
}

/// A payload, borrowed from a log. Contracts see it as its bytes.
#[derive(Drop)]
pub struct Payload<'a> {
    bytes: &'a [u8],
}

impl<'a> Model for Payload<'a> {
    ghost use Rattle.std.specs.Prelude.{ℕ, List};

    ghost Value = { List ℕ };

    ghost view = { λ p. p.bytes.now };
}

impl<'a> Payload<'a> {
    /// Its bytes.
    pub fn bytes(&self) -> &'a [u8]
        ensures { result.now ≡ self.now }
    {
        self.bytes
    }
}

/// The payloads of one connection, in order of time. Contracts see them as a list.
#[derive(Drop)]
pub struct Payloads<'a> {
    list: Vec<Payload<'a>>,
}

impl<'a> Model for Payloads<'a> {
    ghost use Rattle.std.specs.Prelude.{ℕ, List};

    ghost Value = { List (List ℕ) };

    ghost view = { λ p. p.list.items };
}

impl<'a> Payloads<'a> {
    /// No payload.
    fn new(alloc: Global) -> Payloads<'a>
        ensures { result ≡ [] }
    {
        Payloads {
            list: Vec::new(alloc),
        }
    }

    /// Appends a payload.
    fn push(&mut self, bytes: &'a [u8]) -> Result<(), AllocError>
        ensures { OnOk result (self.new ≡ self.old ++ bytes.now ∷ []) }
    {
        self.list.push(Payload { bytes })?;
        Ok(())
    }

    /// All of them.
    pub fn all(&self) -> &[Payload<'a>]
        ensures { result.now ≡ self.now }
    {
        self.list.as_slice()
    }
}

/// The payloads of each connection by its slot and its ordinal.
type Table<'a> = BTreeMap<(u8, u64), Payloads<'a>, Global>;

/// What went one way on the connections of an application, borrowed from a log.
#[derive(Drop)]
pub struct Traffic<'a> {
    table: Table<'a>,
}

impl<'a> Model for Traffic<'a> {
    ghost use Rattle.csp_record.specs.Traffic.{PlainTraffic};

    ghost Value = { PlainTraffic };

    ghost view = { λ t. t.table.entries };
}

impl<'a> Traffic<'a> {
    /// What went on the connection of this slot and this ordinal: `None` where nothing did.
    pub fn on(&self, slot: u8, ordinal: u64) -> Option<&Payloads<'a>>
        ensures { unwrap_or (option_map (λ payloads. payloads.now) result) [] ≡ payloads_on self.now slot ordinal }
    {
        self.table.get(&(slot, ordinal))
    }
}

/// Whether payloads go this way through a queue, to or from this application.
fn leads(way: Transfer, app: usize, queue: QueueId) -> bool
    ensures { result ≡ leads way app queue }
{
    match (way, queue) {
        (Transfer::Sent, QueueId::Up(number)) | (Transfer::Took, QueueId::Down(number)) => {
            usize::from(number) == app
        }
        _ => false,
    }
}

/// The payload that a turn moved this way, to or from this application.
fn carried<'a>(moved: &Moved<'a>, way: Transfer, app: usize) -> Option<&'a [u8]>
    ensures { option_map (λ bytes. bytes.now) result ≡ carried way app moved.now }
{
    match moved {
        Moved::Popped(queue, packet) if leads(way, app, *queue) => Some(packet.payload()),
        _ => None,
    }
}

/// Adds a payload to those of the connection of this slot and this ordinal.
fn add<'a>(
    alloc: Global,
    table: &mut Table<'a>,
    slot: u8,
    ordinal: u64,
    payload: &'a [u8],
) -> Result<(), AllocError>
    ensures { OnOk result (Gains table.old.entries table.new.entries (λ s o. if slot == s && ordinal == o then payload.now ∷ [] else [])) }
{
    let key = (slot, ordinal);
    let mut payloads = match table.remove(&key) {
        Some(payloads) => payloads,
        None => Payloads::new(alloc),
    };
    payloads.push(payload)?;
    table.insert(key, payloads)?;
    Ok(())
}

/// Adds a payload, where this event tells that one went this way.
fn add_event<'a>(
    alloc: Global,
    table: &mut Table<'a>,
    ends: &Ends,
    way: Transfer,
    payload: &'a [u8],
    event: Event,
) -> Result<(), AllocError>
    ensures { OnOk result (Gains table.old.entries table.new.entries (λ s o. if is_on way s event && get_or ends.now s 0 == o then payload.now ∷ [] else [])) }
{
    match (way, event) {
        (Transfer::Sent, Event::Sent { slot, .. }) | (Transfer::Took, Event::Took { slot, .. }) => {
            add(alloc, table, slot, ends.of(slot), payload)
        }
        _ => Ok(()),
    }
}

/// Adds a payload for each of these events that tells so.
fn add_told<'a>(
    alloc: Global,
    table: &mut Table<'a>,
    ends: &Ends,
    way: Transfer,
    payload: &'a [u8],
    events: &[Event],
) -> Result<(), AllocError>
    ensures { OnOk result (Gains table.old.entries table.new.entries (λ s o. flat_map (λ e. if is_on way s e && get_or ends.now s 0 == o then payload.now ∷ [] else []) events.now)) }
{
    for event in events {
        add_event(alloc, table, ends, way, payload, *event)?;
    }
    Ok(())
}

/// Adds what one entry tells.
fn add_entry<'a>(
    alloc: Global,
    table: &mut Table<'a>,
    ends: &Ends,
    way: Transfer,
    app: usize,
    log: &'a Log,
    index: u64,
) -> Result<(), AllocError>
    requires { index < length log.now.entries }
    ensures { OnOk result (Gains table.old.entries table.new.entries (λ s o. option_map_or (λ e. if get_or ends.now s 0 == o then payloads_in way (seat app s) e else []) (slice_get log.now.entries index) [])) }
{
    match carried(&log.moved(index), way, app) {
        Some(payload) => add_told(alloc, table, ends, way, payload, log.events(index)),
        None => Ok(()),
    }
}

/// What went this way on the connections of this application, by this log.
fn traffic_of<'a>(
    alloc: Global,
    log: &'a Log,
    way: Transfer,
    app: usize,
) -> Result<Traffic<'a>, AllocError>
    ensures { IfOk result (λ traffic. (slot ordinal : ℕ) → payloads_on traffic slot ordinal ≡ payloads way (seat app slot) ordinal log.now.entries) }
{
    let mut table = BTreeMap::new(alloc);
    let mut ends = Ends::none();
    let mut index = log.next_deed(0);
    while index < log.len() {
        add_entry(alloc, &mut table, &ends, way, app, log, index)?;
        ends.note(way, app, log.noted(index));
        index = log.next_deed(index + 1);
    }
    Ok(Traffic { table })
}

/// What was sent on the connections of this application, by the log of its router: the payloads that the
/// router popped from its `Up`, where it reported so.
pub fn sent<'a>(alloc: Global, log: &'a Log, app: usize) -> Result<Traffic<'a>, AllocError>
    ensures { IfOk result (λ traffic. (slot ordinal : ℕ) → payloads_on traffic slot ordinal ≡ sent (seat app slot) ordinal log.now.entries) }
{
    traffic_of(alloc, log, Transfer::Sent, app)
}

/// What was taken from the connections of this application, by its own log: the payloads that it popped from
/// its `Down`, where it reported so.
pub fn took<'a>(alloc: Global, log: &'a Log, app: usize) -> Result<Traffic<'a>, AllocError>
    ensures { IfOk result (λ traffic. (slot ordinal : ℕ) → payloads_on traffic slot ordinal ≡ took (seat app slot) ordinal log.now.entries) }
{
    traffic_of(alloc, log, Transfer::Took, app)
}
