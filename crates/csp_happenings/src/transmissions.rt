//! Which packets an interface has transmitted before.

ghost use Rattle.std.specs.Prelude.{◌≡◌, ℕ, false, if◌then◌else◌, OnOk};
ghost use Rattle.std.specs.List.{list_any};
ghost use Rattle.std.specs.Option.{option_and_then, option_map_or};
ghost use Rattle.csp_happenings.specs.Happenings.{takes_number, number_by, number_of, is_beginning, was_sent};
ghost use Rattle.csp_happenings.specs.Numbers.{has, Adds};

use crate::kinds::{Kind, Parcel};
use csp_base::Tag;
use csp_log::Event;
use std::alloc::{AllocError, Global};
use std::collections::BTreeSet;

/// Flows of one node, and the numbers in them that packets took.
pub(crate) type Numbers = BTreeSet<(u32, u64), Global>;

/// Whether packets of this kind take a number in their flow.
fn takes_number(kind: Kind) -> bool
    ensures { result ≡ takes_number kind }
{
    match kind {
        Kind::Syn | Kind::Data => true,
        Kind::Rst | Kind::Eak | Kind::Ack | Kind::Short => false,
    }
}

/// The flow and the number that a tag names, where it is of this node.
fn number_by(node: u8, tag: Tag) -> Option<(u32, u64)>
    ensures { result ≡ number_by node tag }
{
    if tag.node == node {
        Some((tag.nth, tag.index))
    } else {
        None
    }
}

/// The flow of this node and the number in it which a packet takes, if it takes one.
fn number_of(node: u8, packet: &Parcel) -> Option<(u32, u64)>
    ensures { result ≡ number_of node packet.now }
{
    if takes_number(packet.kind) {
        number_by(node, packet.trace.tag?)
    } else {
        None
    }
}

/// The same of a packet, if there is one.
pub(crate) fn number_in(node: u8, packet: Option<Parcel>) -> Option<(u32, u64)>
    ensures { result ≡ option_and_then (number_of node) packet }
{
    number_of(node, &packet?)
}

/// Whether an event tells that a transmission began.
fn is_beginning(event: &Event) -> bool
    ensures { result ≡ is_beginning event.now }
{
    matches!(event, Event::Transmitted { .. })
}

/// Whether some of these events tells so.
fn any_beginning(events: &[Event]) -> bool
    ensures { result ≡ list_any is_beginning events.now }
{
    events.iter().any(is_beginning)
}

/// Whether a packet with this number was transmitted.
pub(crate) fn was_sent(numbers: &Numbers, number: Option<(u32, u64)>) -> bool
    ensures { result ≡ option_map_or (has numbers.now) number false }
{
    match number {
        Some(number) => numbers.contains(&number),
        None => false,
    }
}

/// Adds the number of a packet, where its transmission began.
pub(crate) fn note_sent(
    numbers: &mut Numbers,
    events: &[Event],
    number: Option<(u32, u64)>,
) -> Result<(), AllocError>
    ensures { OnOk result (Adds numbers.old numbers.new (if list_any is_beginning events.now then number else None)) }
{
    match number {
        Some(number) if any_beginning(events) => {
            numbers.insert(number)?;
            Ok(())
        }
        _ => Ok(()),
    }
}
