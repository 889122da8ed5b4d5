//! Nodes that sent nothing.

ghost use Rattle.std.specs.Prelude.{◌≡◌, ◌++◌, OnOk};
ghost use Rattle.std.specs.List.{list_any};
ghost use Rattle.std.specs.String.{string_bytes};
ghost use Rattle.csp_report.specs.Lines.{text_of};
ghost use Rattle.csp_exports.specs.Unused.{is_sender_of, is_transmission, node_lines, silent_lines};

use crate::parties::is_iface_of;
use csp_log::Event;
use csp_record::PartyLog;
use csp_report::{begin_line, end_line, push_word};
use csp_scene::SceneNode;
use std::alloc::AllocError;

/// Whether an event tells that a transmission began.
fn is_transmission(event: Event) -> bool
    ensures { result ≡ is_transmission event }
{
    match event {
        Event::Transmitted { .. } => true,
        _ => false,
    }
}

/// Whether these events tell of a transmission.
fn has_transmission(events: &[Event]) -> bool
    ensures { result ≡ list_any is_transmission events.now }
{
    events.iter().any(|event| is_transmission(*event))
}

/// Whether a party is an interface of the node at this place, and sent something.
fn is_sender_of(party: &PartyLog, place: usize) -> bool
    ensures { result ≡ is_sender_of place party.now }
{
    is_iface_of(party.who, place) && has_transmission(party.log.all_events())
}

/// Whether an interface of the node at this place sent something.
fn has_sent(parties: &[PartyLog], place: usize) -> bool
    ensures { result ≡ list_any (is_sender_of place) parties.now }
{
    parties.iter().any(|party| is_sender_of(party, place))
}

/// Appends the line of the node or bridge at this place, where none of its interfaces sent anything.
fn push_silent(
    out: &mut String,
    parties: &[PartyLog],
    place: usize,
    node: &SceneNode,
) -> Result<(), AllocError>
    ensures { OnOk result (string_bytes out.new ≡ string_bytes out.old ++ text_of (silent_lines parties.now place node.now)) }
{
    if has_sent(parties, place) {
        return Ok(());
    }
    begin_line(out, "node")?;
    push_word(out, node.name.as_str())?;
    end_line(out)
}

/// Appends the lines of all nodes that sent nothing.
pub(crate) fn push_nodes(
    out: &mut String,
    parties: &[PartyLog],
    nodes: &[SceneNode],
) -> Result<(), AllocError>
    ensures { OnOk result (string_bytes out.new ≡ string_bytes out.old ++ text_of (node_lines parties.now nodes.now)) }
{
    for (place, node) in nodes.iter().enumerate() {
        push_silent(out, parties, place, node)?;
    }
    Ok(())
}
