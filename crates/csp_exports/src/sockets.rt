//! Sockets that nobody reached.

ghost use Rattle.std.specs.Prelude.{◌≡◌, ◌++◌, ◌<◌, false, length, slice_get, OnOk};
ghost use Rattle.std.specs.List.{flat_map, enumerate_from, list_any};
ghost use Rattle.std.specs.Option.{option_map_or};
ghost use Rattle.std.specs.String.{string_bytes};
ghost use Rattle.csp_app.specs.Placing.{plain_step};
ghost use Rattle.csp_log.specs.Moving.{moved_in};
ghost use Rattle.csp_report.specs.Lines.{ended_line, text_of};
ghost use Rattle.csp_exports.specs.Unused.{app_lines, binds, came_to, is_lonely, is_reached_by, is_reaching, lonely_lines, node_socket_lines, opens_for, socket_line, socket_lines};

use crate::parties::is_router_of;
use csp_app::{Script, Step};
use csp_header::Header;
use csp_log::{Event, Log, Moved, QueueId};
use csp_record::PartyLog;
use csp_report::{begin_line, end_line, push_count, push_word};
use csp_scene::{SceneApp, SceneNode};
use std::alloc::AllocError;

/// So many ports there are.
pub const PORTS: u8 = 64;

/// Whether a step binds this port.
fn binds(step: &Step<'_>, port: u8) -> bool
    ensures { result ≡ binds port (plain_step step.now) }
{
    match step {
        Step::Bind { port: bound, .. } => bound.get() == port,
        Step::Take
        | Step::Give
        | Step::Connect { .. }
        | Step::Send { .. }
        | Step::Burst { .. }
        | Step::Blob { .. }
        | Step::Raw { .. }
        | Step::Recv { .. }
        | Step::Collect { .. }
        | Step::Close { .. }
        | Step::Wait { .. } => false,
    }
}

/// Whether one of these steps binds this port.
fn has_bound(steps: &Script, port: u8) -> bool
    ensures { result ≡ list_any (binds port) steps.now }
{
    let mut number = 0;
    while number < steps.len() {
        if binds(&steps.step(number), port) {
            return true;
        }
        number += 1;
    }
    false
}

/// Whether the turn of this entry took a packet to this port out of an inbox.
fn has_come(log: &Log, index: u64, port: u8) -> bool
    requires { index < length log.now.entries }
    ensures { result ≡ option_map_or (λ e. came_to port (moved_in e)) (slice_get log.now.entries index) false }
{
    match log.moved(index) {
        Moved::Popped(QueueId::Inbox, packet) => {
            Header::decode(packet.header()).dport.get() == port
        }
        _ => false,
    }
}

/// Whether an event tells that a connection of this application became open.
fn opens_for(event: Event, app: usize) -> bool
    ensures { result ≡ opens_for app event }
{
    match event {
        Event::Opened { app: number, .. } => usize::from(number) == app,
        _ => false,
    }
}

/// Whether one of these events does.
fn has_opened(events: &[Event], app: usize) -> bool
    ensures { result ≡ list_any (opens_for app) events.now }
{
    events.iter().any(|event| opens_for(*event, app))
}

/// Whether an application's socket on this port was reached by the turn of this entry.
fn is_reaching(log: &Log, index: u64, app: usize, port: u8) -> bool
    requires { index < length log.now.entries }
    ensures { result ≡ option_map_or (is_reaching app port) (slice_get log.now.entries index) false }
{
    has_come(log, index, port) && has_opened(log.events(index), app)
}

/// Whether it was reached by one of the turns of a log.
fn has_reached(log: &Log, app: usize, port: u8) -> bool
    ensures { result ≡ list_any (is_reaching app port) log.now.entries }
{
    let mut index = 0;
    while index < log.len() {
        if is_reaching(log, index, app, port) {
            return true;
        }
        index += 1;
    }
    false
}

/// Whether a party is the router of the node at this place, and the socket was reached by one of its turns.
fn is_reached_by(party: &PartyLog, place: usize, app: usize, port: u8) -> bool
    ensures { result ≡ is_reached_by place app port party.now }
{
    is_router_of(party.who, place) && has_reached(&party.log, app, port)
}

/// Whether anybody reached an application's socket on this port.
fn is_reached(parties: &[PartyLog], place: usize, app: usize, port: u8) -> bool
    ensures { result ≡ list_any (is_reached_by place app port) parties.now }
{
    parties
        .iter()
        .any(|party| is_reached_by(party, place, app, port))
}

/// Whether an application binds this port, and nobody reached it there.
fn is_lonely(parties: &[PartyLog], place: usize, app: usize, steps: &Script, port: u8) -> bool
    ensures { result ≡ is_lonely parties.now place app steps.now port }
{
    has_bound(steps, port) && !is_reached(parties, place, app, port)
}

/// Appends `socket NODE APP PORT`.
fn push_socket(out: &mut String, node: &str, app: &str, port: u8) -> Result<(), AllocError>
    ensures { OnOk result (string_bytes out.new ≡ string_bytes out.old ++ ended_line (socket_line node.now app.now port)) }
{
    begin_line(out, "socket")?;
    push_word(out, node)?;
    push_word(out, app)?;
    push_count(out, u64::from(port))?;
    end_line(out)
}

/// Appends the line of an application's socket on this port, where nobody reached it.
fn push_lonely(
    out: &mut String,
    parties: &[PartyLog],
    place: usize,
    number: usize,
    node: &str,
    app: &SceneApp,
    port: u8,
) -> Result<(), AllocError>
    ensures { OnOk result (string_bytes out.new ≡ string_bytes out.old ++ text_of (lonely_lines parties.now place number node.now app.now port)) }
{
    if is_lonely(parties, place, number, &app.script, port) {
        push_socket(out, node, app.name.as_str(), port)
    } else {
        Ok(())
    }
}

/// Appends the lines of an application's sockets that nobody reached.
fn push_app(
    out: &mut String,
    parties: &[PartyLog],
    place: usize,
    number: usize,
    node: &str,
    app: &SceneApp,
) -> Result<(), AllocError>
    ensures { OnOk result (string_bytes out.new ≡ string_bytes out.old ++ text_of (app_lines parties.now place number node.now app.now)) }
{
    for port in 0..PORTS {
        push_lonely(out, parties, place, number, node, app, port)?;
    }
    Ok(())
}

/// Appends those of the applications of the node at this place.
fn push_apps(
    out: &mut String,
    parties: &[PartyLog],
    place: usize,
    node: &str,
    apps: &[SceneApp],
) -> Result<(), AllocError>
    ensures { OnOk result (string_bytes out.new ≡ string_bytes out.old ++ text_of (flat_map (λ a. app_lines parties.now place a.0 node.now a.1) (enumerate_from 0 apps.now))) }
{
    for (number, app) in apps.iter().enumerate() {
        push_app(out, parties, place, number, node, app)?;
    }
    Ok(())
}

/// Appends those of the node at this place.
fn push_node(
    out: &mut String,
    parties: &[PartyLog],
    place: usize,
    node: &SceneNode,
) -> Result<(), AllocError>
    ensures { OnOk result (string_bytes out.new ≡ string_bytes out.old ++ text_of (node_socket_lines parties.now place node.now)) }
{
    push_apps(
        out,
        parties,
        place,
        node.name.as_str(),
        node.apps.as_slice(),
    )?;
    Ok(())
}

/// Appends those of all nodes.
pub(crate) fn push_sockets(
    out: &mut String,
    parties: &[PartyLog],
    nodes: &[SceneNode],
) -> Result<(), AllocError>
    ensures { OnOk result (string_bytes out.new ≡ string_bytes out.old ++ text_of (socket_lines parties.now nodes.now)) }
{
    for (place, node) in nodes.iter().enumerate() {
        push_node(out, parties, place, node)?;
    }
    Ok(())
}
