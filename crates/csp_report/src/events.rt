//! The lines of what a node was asked to do: to start again, or to stop.

ghost use Rattle.std.specs.Prelude.{◌≡◌, ◌≤◌, ◌++◌, ◌<◌, [], length, slice_get, OnOk};
ghost use Rattle.std.specs.Option.{option_map, option_map_or};
ghost use Rattle.std.specs.String.{string_bytes};
ghost use Rattle.std.specs.List.{flat_map, enumerate_from};
ghost use Rattle.csp_report.specs.Lines.{ended_line, text_of};
ghost use Rattle.csp_report.specs.Parties.{entries_of};
ghost use Rattle.csp_report.specs.Events.{round_at, asked_line, asked_lines, entry_lines};
ghost use Rattle.csp_report.specs.Report.{node_event_lines};

use crate::lines::{begin_line, end_line, push_count, push_word};
use crate::parties::party_at;
use csp_log::{Event, Log};
use csp_record::{PartyLog, Record, Who};
use csp_scene::{MAX_NODES, SceneNode};
use std::alloc::AllocError;

/// The round of the entry of this index, counted from 0.
fn round_at(log: &Log, index: u64) -> u64
    requires { index < length log.now.entries }
    ensures { result ≡ round_at log.now.entries index }
{
    log.time(index)
}

/// Appends `event NODE WORD ROUND`, with the round of the entry of this index.
fn push_asked(
    out: &mut String,
    node: &str,
    word: &str,
    log: &Log,
    index: u64,
) -> Result<(), AllocError>
    requires { index < length log.now.entries }
    ensures { OnOk result (string_bytes out.new ≡ string_bytes out.old ++ ended_line (asked_line word.now node.now (round_at log.now.entries index))) }
{
    begin_line(out, "event")?;
    push_word(out, node)?;
    push_word(out, word)?;
    push_count(out, round_at(log, index))?;
    end_line(out)
}

/// Appends the line of what a node was asked to do in the entry of this index, if this event of it tells that.
fn push_event(
    out: &mut String,
    node: &str,
    log: &Log,
    index: u64,
    event: Event,
) -> Result<(), AllocError>
    requires { index < length log.now.entries }
    ensures { OnOk result (string_bytes out.new ≡ string_bytes out.old ++ text_of (asked_lines node.now (round_at log.now.entries index) event)) }
{
    match event {
        Event::Reboot => push_asked(out, node, "reboot", log, index),
        Event::Shutdown => push_asked(out, node, "shutdown", log, index),
        Event::TookEmpty { .. }
        | Event::Sent { .. }
        | Event::Took { .. }
        | Event::BlobTook { .. }
        | Event::BlobRefused { .. }
        | Event::Refused { .. }
        | Event::GaveUp { .. }
        | Event::SlotDown { .. }
        | Event::Discarded(_)
        | Event::Handed { .. }
        | Event::Opened { .. }
        | Event::Transmitted { .. }
        | Event::Bad { .. }
        | Event::Starved
        | Event::InboxFull
        | Event::TooBig => Ok(()),
    }
}

/// Appends the lines of these events of the entry of this index, in order.
fn push_events(
    out: &mut String,
    node: &str,
    log: &Log,
    index: u64,
    events: &[Event],
) -> Result<(), AllocError>
    requires { index < length log.now.entries }
    ensures { OnOk result (string_bytes out.new ≡ string_bytes out.old ++ text_of (flat_map (asked_lines node.now (round_at log.now.entries index)) events.now)) }
{
    for event in events {
        push_event(out, node, log, index, *event)?;
    }
    Ok(())
}

/// Appends the lines of the entry of this index.
fn push_entry(out: &mut String, node: &str, log: &Log, index: u64) -> Result<(), AllocError>
    requires { index < length log.now.entries }
    ensures { OnOk result (string_bytes out.new ≡ string_bytes out.old ++ text_of (option_map_or (entry_lines node.now) (slice_get log.now.entries index) [])) }
{
    push_events(out, node, log, index, log.events(index))
}

/// Appends the lines of a router's log.
fn push_log(out: &mut String, node: &str, log: &Log) -> Result<(), AllocError>
    ensures { OnOk result (string_bytes out.new ≡ string_bytes out.old ++ text_of (flat_map (entry_lines node.now) log.now.entries)) }
{
    let mut index = log.next_deed(0);
    while index < log.len() {
        push_entry(out, node, log, index)?;
        index = log.next_deed(index + 1);
    }
    Ok(())
}

/// Appends the lines of a router, where its party is found.
fn push_found(out: &mut String, node: &str, router: Option<&PartyLog>) -> Result<(), AllocError>
    ensures { OnOk result (string_bytes out.new ≡ string_bytes out.old ++ text_of (flat_map (entry_lines node.now) (entries_of (option_map (λ party. party.now) router.entry)))) }
{
    match router {
        Some(router) => push_log(out, node, &router.log),
        None => Ok(()),
    }
}

/// Appends the lines of the node at this place.
fn push_node_events(
    out: &mut String,
    parties: &[PartyLog],
    place: u8,
    node: &str,
) -> Result<(), AllocError>
    ensures { OnOk result (string_bytes out.new ≡ string_bytes out.old ++ text_of (node_event_lines parties.now place node.now)) }
{
    push_found(out, node, party_at(parties, Who::Router(place)))
}

/// Appends the lines of what all nodes were asked to do.
pub(crate) fn push_asked_of_nodes(
    out: &mut String,
    nodes: &[SceneNode],
    run: &Record,
) -> Result<(), AllocError>
    requires { length nodes.now ≤ MAX_NODES }
    ensures { OnOk result (string_bytes out.new ≡ string_bytes out.old ++ text_of (flat_map (λ node. node_event_lines run.now.parties node.0 node.1.name) (enumerate_from 0 nodes.now))) }
{
    for (place, node) in nodes.iter().enumerate() {
        push_node_events(out, run.parties.as_slice(), place as u8, node.name.as_str())?;
    }
    Ok(())
}
