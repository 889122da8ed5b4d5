//! The lines of the connections of an application: what was sent, taken and collected on each.

ghost use Rattle.std.specs.Prelude.{◌≡◌, ◌==◌, ◌++◌, ◌∷◌, [], if◌then◌else◌, OnOk};
ghost use Rattle.std.specs.Option.{option_map};
ghost use Rattle.std.specs.String.{string_bytes};
ghost use Rattle.std.specs.Fmt.{decimal};
ghost use Rattle.std.specs.List.{flat_map, join_with_byte};
ghost use Rattle.csp_record.specs.Traffic.{payloads_on};
ghost use Rattle.csp_report.specs.Lines.{ended_line, text_of, conn_words};
ghost use Rattle.csp_report.specs.Conns.{peer_flow, rdp_words, kind_words, opening_line, bytes_word, payload_lines, opening_lines, slot_lines, conn_lines};

use crate::blobs::{of_blobs, push_collected};
use crate::lines::{end_line, push_count, push_counted, push_word};
use crate::named::{Named, push_named};
use csp_log::{Event, Log};
use csp_record::{Opening, Payload, Traffic, openings, sent, took};
use csp_scene::SceneNode;
use csp_text::push_hex;
use std::alloc::{AllocError, Global};

/// The slots, in their order.
const ALL_SLOTS: [u8; 4] = [0, 1, 2, 3];

/// An application, what went each way on its connections, and the events by which it tells of blobs.
#[derive(Drop)]
struct Talk<'a> {
    nodes: &'a [SceneNode],
    node: &'a str,
    app: &'a str,
    sent: Traffic<'a>,
    took: Traffic<'a>,
    told: Vec<Event>,
}

/// The name of the node of a peer, and the number of its flow there.
fn peer_flow(nodes: &[SceneNode], peer: Option<(u8, u32)>) -> Option<(&str, u32)>
    ensures { option_map (λ flow. (flow.0.now, flow.1)) result ≡ peer_flow nodes.now peer }
{
    let (place, nth) = peer?;
    let node = nodes.get(usize::from(place))?;
    Some((node.name.as_str(), nth))
}

/// Appends ` rdp NTH peer NODE2 NTH2`, or ` rdp NTH peer none`.
fn push_rdp(out: &mut String, nth: u32, flow: Option<(&str, u32)>) -> Result<(), AllocError>
    ensures { OnOk result (string_bytes out.new ≡ string_bytes out.old ++ 32 ∷ join_with_byte 32 (rdp_words nth (option_map (λ flow. (flow.0.now, flow.1)) flow.entry))) }
{
    push_counted(out, "rdp", u64::from(nth))?;
    push_word(out, "peer")?;
    match flow {
        Some((node, number)) => push_counted(out, node, u64::from(number)),
        None => push_word(out, "none"),
    }
}

/// Appends what kind of connection became open.
fn push_kind(out: &mut String, nodes: &[SceneNode], opening: &Opening) -> Result<(), AllocError>
    ensures { OnOk result (string_bytes out.new ≡ string_bytes out.old ++ 32 ∷ join_with_byte 32 (kind_words opening.now.nth (peer_flow nodes.now opening.now.peer))) }
{
    match opening.nth {
        Some(nth) => push_rdp(out, nth, peer_flow(nodes, opening.peer)),
        None => push_word(out, "plain"),
    }
}

/// Appends the line of a connection that became open.
fn push_opened(
    out: &mut String,
    nodes: &[SceneNode],
    named: &Named,
    opening: &Opening,
) -> Result<(), AllocError>
    requires slot { named.now.slot ≡ opening.now.slot }
    requires ordinal { named.now.ordinal ≡ opening.now.ordinal }
    ensures { OnOk result (string_bytes out.new ≡ string_bytes out.old ++ ended_line (opening_line nodes.now named.now.node.now named.now.app.now opening.now)) }
{
    push_named(out, "conn", named)?;
    push_kind(out, nodes, opening)?;
    end_line(out)?;
    Ok(())
}

/// Appends a further word that tells bytes: `-` where there are none, else two digits for each.
fn push_bytes(alloc: Global, out: &mut String, bytes: &[u8]) -> Result<(), AllocError>
    ensures { OnOk result (string_bytes out.new ≡ string_bytes out.old ++ 32 ∷ bytes_word bytes.now) }
{
    match bytes {
        [] => push_word(out, "-"),
        [_, ..] => {
            out.push(' ')?;
            push_hex(alloc, out, bytes)
        }
    }
}

/// Appends the line of a payload with its number.
fn push_payload(
    alloc: Global,
    out: &mut String,
    word: &str,
    named: &Named,
    number: u64,
    bytes: &[u8],
) -> Result<(), AllocError>
    ensures { OnOk result (string_bytes out.new ≡ string_bytes out.old ++ ended_line (conn_words word.now named.now.node.now named.now.app.now named.now.slot named.now.ordinal ++ decimal number ∷ bytes_word bytes.now ∷ [])) }
{
    push_named(out, word, named)?;
    push_count(out, number)?;
    push_bytes(alloc, out, bytes)?;
    end_line(out)
}

/// Appends the lines of these payloads, numbered from 1.
fn push_payloads(
    alloc: Global,
    out: &mut String,
    word: &str,
    named: &Named,
    payloads: &[Payload],
) -> Result<(), AllocError>
    ensures { OnOk result (string_bytes out.new ≡ string_bytes out.old ++ text_of (payload_lines word.now named.now.node.now named.now.app.now named.now.slot named.now.ordinal payloads.now)) }
{
    for (index, payload) in payloads.iter().enumerate() {
        push_payload(alloc, out, word, named, index as u64 + 1, payload.bytes())?;
    }
    Ok(())
}

/// Appends the lines of what went one way on a connection.
fn push_traffic(
    alloc: Global,
    out: &mut String,
    word: &str,
    named: &Named,
    traffic: &Traffic,
) -> Result<(), AllocError>
    ensures { OnOk result (string_bytes out.new ≡ string_bytes out.old ++ text_of (payload_lines word.now named.now.node.now named.now.app.now named.now.slot named.now.ordinal (payloads_on traffic.now named.now.slot named.now.ordinal))) }
{
    match traffic.on(named.slot, named.ordinal) {
        Some(payloads) => push_payloads(alloc, out, word, named, payloads.all()),
        None => Ok(()),
    }
}

/// Appends the lines of a connection that became open.
fn push_opening(
    alloc: Global,
    out: &mut String,
    talk: &Talk,
    opening: &Opening,
) -> Result<(), AllocError>
    ensures { OnOk result (string_bytes out.new ≡ string_bytes out.old ++ text_of (opening_lines talk.now.nodes.now talk.now.node.now talk.now.app.now (record { sent_on = payloads_on talk.now.sent; took_on = payloads_on talk.now.took; told = talk.now.told.items }) opening.now)) }
{
    let named = Named {
        node: talk.node,
        app: talk.app,
        slot: opening.slot,
        ordinal: opening.ordinal,
    };
    push_opened(out, talk.nodes, &named, opening)?;
    push_traffic(alloc, out, "sent", &named, &talk.sent)?;
    push_traffic(alloc, out, "took", &named, &talk.took)?;
    push_collected(alloc, out, &named, talk.told.as_slice())
}

/// Appends the lines of a connection, where it is of this slot.
fn push_of_slot(
    alloc: Global,
    out: &mut String,
    talk: &Talk,
    opening: &Opening,
    slot: u8,
) -> Result<(), AllocError>
    ensures { OnOk result (string_bytes out.new ≡ string_bytes out.old ++ text_of (if opening.now.slot == slot then opening_lines talk.now.nodes.now talk.now.node.now talk.now.app.now (record { sent_on = payloads_on talk.now.sent; took_on = payloads_on talk.now.took; told = talk.now.told.items }) opening.now else [])) }
{
    if opening.slot == slot {
        push_opening(alloc, out, talk, opening)
    } else {
        Ok(())
    }
}

/// Appends the lines of the connections of one slot.
fn push_slot(
    alloc: Global,
    out: &mut String,
    talk: &Talk,
    openings: &[Opening],
    slot: u8,
) -> Result<(), AllocError>
    ensures { OnOk result (string_bytes out.new ≡ string_bytes out.old ++ text_of (slot_lines talk.now.nodes.now talk.now.node.now talk.now.app.now (record { sent_on = payloads_on talk.now.sent; took_on = payloads_on talk.now.took; told = talk.now.told.items }) openings.now slot)) }
{
    for opening in openings {
        push_of_slot(alloc, out, talk, opening, slot)?;
    }
    Ok(())
}

/// Appends the lines of the connections of these slots.
fn push_slots(
    alloc: Global,
    out: &mut String,
    talk: &Talk,
    openings: &[Opening],
    slots: &[u8],
) -> Result<(), AllocError>
    ensures { OnOk result (string_bytes out.new ≡ string_bytes out.old ++ text_of (flat_map (slot_lines talk.now.nodes.now talk.now.node.now talk.now.app.now (record { sent_on = payloads_on talk.now.sent; took_on = payloads_on talk.now.took; told = talk.now.told.items }) openings.now) slots.now)) }
{
    for slot in slots {
        push_slot(alloc, out, talk, openings, *slot)?;
    }
    Ok(())
}

/// Appends the lines of the connections of an application, by the log of its router and its own.
pub(crate) fn push_conns(
    alloc: Global,
    out: &mut String,
    nodes: &[SceneNode],
    node: &str,
    app: &str,
    number: usize,
    router: &Log,
    own: &Log,
) -> Result<(), AllocError>
    ensures { OnOk result (string_bytes out.new ≡ string_bytes out.old ++ text_of (conn_lines nodes.now node.now app.now number router.now.entries own.now.entries)) }
{
    let opened = openings(alloc, router, number)?;
    // Without a connection there is no line, so that nothing that was sent or taken need be looked for.
    if opened.is_empty() {
        return Ok(());
    }
    let talk = Talk {
        nodes,
        node,
        app,
        sent: sent(alloc, router, number)?,
        took: took(alloc, own, number)?,
        told: of_blobs(alloc, own.all_events())?,
    };
    push_slots(alloc, out, &talk, opened.as_slice(), &ALL_SLOTS)?;
    Ok(())
}
