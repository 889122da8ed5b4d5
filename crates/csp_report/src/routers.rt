//! The line of a router or bridge: how many packets it discarded, and why.

ghost use Rattle.std.specs.Prelude.{◌≡◌, ◌≤◌, ◌++◌, ◌∷◌, length, map, count_by, OnOk};
ghost use Rattle.std.specs.String.{string_bytes};
ghost use Rattle.std.specs.Fmt.{decimal};
ghost use Rattle.std.specs.List.{flat_map, enumerate_from};
ghost use Rattle.csp_report.specs.Lines.{ended_line, text_of};
ghost use Rattle.csp_report.specs.Events.{is_discard, discard_words, word_of};
ghost use Rattle.csp_report.specs.Report.{router_words, router_line};

use crate::lines::{begin_line, end_line, push_counted, push_word};
use crate::parties::events_at;
use csp_base::Addr;
use csp_log::{Discard, Event};
use csp_record::{Record, Who};
use csp_scene::{MAX_NODES, SceneNode};
use std::alloc::AllocError;

/// The reasons, in the order in which a router's line has them.
const DISCARDS: [Discard; 12] = [
    Discard::NoRoute,
    Discard::BackOut,
    Discard::Refused,
    Discard::CrcWrong,
    Discard::NoSocket,
    Discard::NoSlot,
    Discard::Required,
    Discard::Malformed,
    Discard::Mixed,
    Discard::NoConn,
    Discard::Stray,
    Discard::Full,
];

/// The reason of a bridge.
const RELAY_DISCARDS: [Discard; 1] = [Discard::Full];

/// The word of a reason in a router's line.
pub fn word_of(why: Discard) -> &'static str
    ensures { result.now ≡ word_of why }
{
    match why {
        Discard::NoRoute => "noroute",
        Discard::BackOut => "backout",
        Discard::Refused => "refused",
        Discard::CrcWrong => "crc",
        Discard::NoSocket => "nosocket",
        Discard::NoSlot => "noslot",
        Discard::Required => "required",
        Discard::Malformed => "malformed",
        Discard::Mixed => "mixed",
        Discard::NoConn => "noconn",
        Discard::Stray => "stray",
        Discard::Full => "full",
    }
}

/// Whether an event is a discard for this reason.
fn is_discard(event: &Event, why: Discard) -> bool
    ensures { result ≡ is_discard why event.now }
{
    match event {
        Event::Discarded(reason) => *reason == why,
        _ => false,
    }
}

/// How many of these events are discards for this reason.
fn count_events(events: &[Event], why: Discard) -> usize
    ensures { result ≡ count_by (is_discard why) events.now }
{
    events.iter().filter(|event| is_discard(event, why)).count()
}

/// Appends the words of these reasons, each with the number of these events that are discards for it.
fn push_discards(out: &mut String, events: &[Event], reasons: &[Discard]) -> Result<(), AllocError>
    ensures { OnOk result (string_bytes out.new ≡ string_bytes out.old ++ flat_map (λ why. 32 ∷ (word_of why ++ 32 ∷ decimal (count_by (is_discard why) events.now))) reasons.now) }
{
    for why in reasons {
        push_counted(out, word_of(*why), count_events(events, *why) as u64)?;
    }
    Ok(())
}

/// Appends a line of this word, a name and the discards for these reasons among these events.
fn push_discarding(
    out: &mut String,
    word: &str,
    name: &str,
    events: &[Event],
    reasons: &[Discard],
) -> Result<(), AllocError>
    ensures { OnOk result (string_bytes out.new ≡ string_bytes out.old ++ ended_line (word.now ∷ name.now ∷ discard_words events.now reasons.now)) }
{
    begin_line(out, word)?;
    push_word(out, name)?;
    push_discards(out, events, reasons)?;
    end_line(out)?;
    Ok(())
}

/// Appends the line of the router at this place, or of the bridge there, which has no address.
fn push_discarder(
    out: &mut String,
    run: &Record,
    place: u8,
    name: &str,
    addr: Option<Addr>,
) -> Result<(), AllocError>
    ensures { OnOk result (string_bytes out.new ≡ string_bytes out.old ++ ended_line (router_words run.now place name.now addr)) }
{
    let parties = run.parties.as_slice();
    match addr {
        Some(_) => {
            let events = events_at(parties, Who::Router(place));
            push_discarding(out, "router", name, events, &DISCARDS)
        }
        None => {
            let events = events_at(parties, Who::Bridge(place));
            push_discarding(out, "relay", name, events, &RELAY_DISCARDS)
        }
    }
}

/// Appends the line of the router of this node, or of this bridge.
fn push_router(
    out: &mut String,
    run: &Record,
    place: u8,
    node: &SceneNode,
) -> Result<(), AllocError>
    ensures { OnOk result (string_bytes out.new ≡ string_bytes out.old ++ ended_line (router_line run.now place node.now)) }
{
    push_discarder(out, run, place, node.name.as_str(), node.addr)
}

/// Appends the lines of the routers and bridges of all nodes.
pub(crate) fn push_routers(
    out: &mut String,
    nodes: &[SceneNode],
    run: &Record,
) -> Result<(), AllocError>
    requires { length nodes.now ≤ MAX_NODES }
    ensures { OnOk result (string_bytes out.new ≡ string_bytes out.old ++ text_of (map (λ node. router_line run.now node.0 node.1) (enumerate_from 0 nodes.now))) }
{
    for (place, node) in nodes.iter().enumerate() {
        push_router(out, run, place as u8, node)?;
    }
    Ok(())
}
