//! The lines of an application: whether it ended, what it reported, and its connections.

ghost use Rattle.std.specs.Prelude.{◌≡◌, ◌≤◌, ◌++◌, ◌∷◌, ◌==◌, if◌then◌else◌, OnOk, codes, length, Some};
ghost use Rattle.std.specs.Option.{option_map};
ghost use Rattle.std.specs.String.{string_bytes};
ghost use Rattle.std.specs.Fmt.{decimal};
ghost use Rattle.std.specs.List.{AllByRecursion, flat_map, enumerate_from};
ghost use Rattle.csp_scene.specs.Ranges.{IsNode};
ghost use Rattle.csp_report.specs.Lines.{ended_line, text_of};
ghost use Rattle.csp_report.specs.Parties.{party_at, entries_of};
ghost use Rattle.csp_report.specs.Conns.{conn_lines};
ghost use Rattle.csp_report.specs.Events.{word_of_refusal, step_line, refused_line, event_lines};
ghost use Rattle.csp_report.specs.Report.{state_line, app_lines, node_app_lines};

use crate::conns::push_conns;
use crate::lines::{begin_line, end_line, push_count, push_counted, push_word};
use crate::parties::party_at;
use csp_base::MAX_APPS;
use csp_log::{Event, Log, Why};
use csp_record::{PartyLog, Record, Who};
use csp_scene::{MAX_NODES, SceneApp, SceneNode};
use std::alloc::{AllocError, Global};

/// The node of an application: its name, its router, and all nodes, by which a peer's node has its name.
#[derive(Drop)]
struct Host<'a> {
    nodes: &'a [SceneNode],
    node: &'a str,
    router: Option<&'a PartyLog>,
}

/// Appends ` ended`, or ` step K` with the present step, from 1.
fn push_progress(out: &mut String, step: u32) -> Result<(), AllocError>
    ensures { OnOk result (string_bytes out.new ≡ string_bytes out.old ++ (if step == 0 then 32 ∷ codes "ended" else 32 ∷ (codes "step" ++ 32 ∷ decimal step))) }
{
    if step == 0 {
        push_word(out, "ended")
    } else {
        push_counted(out, "step", u64::from(step))
    }
}

/// Appends `app NODE NAME ended`, or `app NODE NAME step K` with the present step, from 1.
fn push_state(out: &mut String, node: &str, app: &str, step: u32) -> Result<(), AllocError>
    ensures { OnOk result (string_bytes out.new ≡ string_bytes out.old ++ ended_line (state_line node.now app.now step)) }
{
    begin_line(out, "app")?;
    push_word(out, node)?;
    push_word(out, app)?;
    push_progress(out, step)?;
    end_line(out)
}

/// Appends `WORD NODE APP K`.
fn push_step(
    out: &mut String,
    word: &str,
    node: &str,
    app: &str,
    step: u32,
) -> Result<(), AllocError>
    ensures { OnOk result (string_bytes out.new ≡ string_bytes out.old ++ ended_line (step_line word.now node.now app.now step)) }
{
    begin_line(out, word)?;
    push_word(out, node)?;
    push_word(out, app)?;
    push_count(out, u64::from(step))?;
    end_line(out)
}

/// The word of why a request was refused.
pub fn word_of_refusal(why: Why) -> &'static str
    ensures { result.now ≡ word_of_refusal why }
{
    match why {
        Why::InUse => "inuse",
        Why::NotBindable => "notbindable",
        Why::Busy => "busy",
        Why::PortBusy => "portbusy",
        Why::Timeout => "timeout",
        Why::Reset => "reset",
    }
}

/// Appends `refused NODE APP K WHY`.
fn push_refused(
    out: &mut String,
    node: &str,
    app: &str,
    step: u32,
    why: Why,
) -> Result<(), AllocError>
    ensures { OnOk result (string_bytes out.new ≡ string_bytes out.old ++ ended_line (refused_line node.now app.now step why)) }
{
    begin_line(out, "refused")?;
    push_word(out, node)?;
    push_word(out, app)?;
    push_count(out, u64::from(step))?;
    push_word(out, word_of_refusal(why))?;
    end_line(out)
}

/// Appends the line of what an application reports, if this event has one.
fn push_event(out: &mut String, node: &str, app: &str, event: Event) -> Result<(), AllocError>
    ensures { OnOk result (string_bytes out.new ≡ string_bytes out.old ++ text_of (event_lines node.now app.now event)) }
{
    match event {
        Event::TookEmpty { step } => push_step(out, "empty", node, app, step),
        Event::Refused { step, why } => push_refused(out, node, app, step, why),
        Event::GaveUp { step } => push_step(out, "gaveup", node, app, step),
        Event::SlotDown { step } => push_step(out, "down", node, app, step),
        Event::Sent { .. }
        | Event::Took { .. }
        | Event::BlobTook { .. }
        | Event::BlobRefused { .. }
        | Event::Discarded(_)
        | Event::Handed { .. }
        | Event::Opened { .. }
        | Event::Transmitted { .. }
        | Event::Bad { .. }
        | Event::Starved
        | Event::InboxFull
        | Event::TooBig
        | Event::Reboot
        | Event::Shutdown => Ok(()),
    }
}

/// Appends the lines of these events, in order.
fn push_events(out: &mut String, node: &str, app: &str, events: &[Event]) -> Result<(), AllocError>
    ensures { OnOk result (string_bytes out.new ≡ string_bytes out.old ++ text_of (flat_map (event_lines node.now app.now) events.now)) }
{
    for event in events {
        push_event(out, node, app, *event)?;
    }
    Ok(())
}

/// Appends the lines of the connections of an application, where its router's party is found.
fn push_talk(
    alloc: Global,
    out: &mut String,
    host: &Host,
    app: &str,
    number: usize,
    own: &Log,
) -> Result<(), AllocError>
    ensures { OnOk result (string_bytes out.new ≡ string_bytes out.old ++ text_of (conn_lines host.now.nodes.now host.now.node.now app.now number (entries_of (option_map (λ party. party.now) host.now.router)) own.now.entries)) }
{
    match host.router {
        Some(router) => push_conns(
            alloc,
            out,
            host.nodes,
            host.node,
            app,
            number,
            &router.log,
            own,
        ),
        None => Ok(()),
    }
}

/// Appends the lines of an application, where its party is given.
fn push_app(
    alloc: Global,
    out: &mut String,
    host: &Host,
    app: &str,
    number: usize,
    party: &PartyLog,
) -> Result<(), AllocError>
    ensures { OnOk result (string_bytes out.new ≡ string_bytes out.old ++ text_of (app_lines host.now.nodes.now host.now.node.now (entries_of (option_map (λ party. party.now) host.now.router)) app.now number (Some party.now))) }
{
    push_state(out, host.node, app, party.step)?;
    push_events(out, host.node, app, party.log.all_events())?;
    push_talk(alloc, out, host, app, number, &party.log)
}

/// Appends the lines of an application, where its party is found.
fn push_found(
    alloc: Global,
    out: &mut String,
    host: &Host,
    app: &str,
    number: usize,
    party: Option<&PartyLog>,
) -> Result<(), AllocError>
    ensures { OnOk result (string_bytes out.new ≡ string_bytes out.old ++ text_of (app_lines host.now.nodes.now host.now.node.now (entries_of (option_map (λ party. party.now) host.now.router)) app.now number (option_map (λ party. party.now) party.entry))) }
{
    match party {
        Some(party) => push_app(alloc, out, host, app, number, party),
        None => Ok(()),
    }
}

/// Appends the lines of these applications of the node at this place.
fn push_app_list(
    alloc: Global,
    out: &mut String,
    host: &Host,
    parties: &[PartyLog],
    place: u8,
    apps: &[SceneApp],
) -> Result<(), AllocError>
    requires router { option_map (λ party. party.now) host.now.router ≡ party_at parties.now (Who.Router place) }
    requires few { length apps.now ≤ MAX_APPS }
    ensures { OnOk result (string_bytes out.new ≡ string_bytes out.old ++ text_of (node_app_lines host.now.nodes.now parties.now place host.now.node.now apps.now)) }
{
    for (number, app) in apps.iter().enumerate() {
        let party = party_at(parties, Who::App(place, number as u8));
        push_found(alloc, out, host, app.name.as_str(), number, party)?;
    }
    Ok(())
}

/// Appends the lines of all applications of the node at this place.
fn push_node_apps(
    alloc: Global,
    out: &mut String,
    nodes: &[SceneNode],
    run: &Record,
    place: u8,
    node: &SceneNode,
) -> Result<(), AllocError>
    requires { IsNode node.now }
    ensures { OnOk result (string_bytes out.new ≡ string_bytes out.old ++ text_of (node_app_lines nodes.now run.now.parties place node.now.name node.now.apps)) }
{
    let parties = run.parties.as_slice();
    let host = Host {
        nodes,
        node: node.name.as_str(),
        router: party_at(parties, Who::Router(place)),
    };
    push_app_list(alloc, out, &host, parties, place, node.apps.as_slice())
}

/// Appends the lines of the applications of all nodes.
pub(crate) fn push_apps(
    alloc: Global,
    out: &mut String,
    nodes: &[SceneNode],
    run: &Record,
) -> Result<(), AllocError>
    requires nodes { AllByRecursion IsNode nodes.now }
    requires few { length nodes.now ≤ MAX_NODES }
    ensures { OnOk result (string_bytes out.new ≡ string_bytes out.old ++ text_of (flat_map (λ node. node_app_lines nodes.now run.now.parties node.0 node.1.name node.1.apps) (enumerate_from 0 nodes.now))) }
{
    for (place, node) in nodes.iter().enumerate() {
        push_node_apps(alloc, out, nodes, run, place as u8, node)?;
    }
    Ok(())
}
