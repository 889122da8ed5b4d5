//! The line of an interface: what it sent, what it accepted, and what it could not.

ghost use Rattle.std.specs.Prelude.{◌≡◌, ◌==◌, ◌++◌, ◌∷◌, ◌^◌, ◌<◌, ◌≤◌, false, length, slice_get, count_by, sum_by, OnOk, OnErr, IfOk};
ghost use Rattle.std.specs.Option.{is_some, option_map_or};
ghost use Rattle.std.specs.String.{string_bytes};
ghost use Rattle.std.specs.Fmt.{decimal};
ghost use Rattle.std.specs.List.{flat_map, enumerate_from};
ghost use Rattle.csp_log.specs.Moving.{moved_in};
ghost use Rattle.csp_record.specs.Passed.{put_in};
ghost use Rattle.csp_report.specs.Lines.{ended_line, text_of};
ghost use Rattle.csp_report.specs.Parties.{entries_at};
ghost use Rattle.csp_report.specs.Ifaces.{weight, entries_count, count_word, iface_line};
ghost use Rattle.csp_report.specs.Report.{node_iface_lines};

use crate::lines::{begin_line, end_line, push_counted, push_word};
use crate::parties::party_at;
use csp_log::{Event, Log, Moved, QueueId};
use csp_record::{PartyLog, Record, Who};
use csp_scene::{MAX_LINKS, MAX_NODES, SceneLink, SceneNode};
use std::alloc::AllocError;

/// A count in an interface's line, by the word before it.
#[derive(Clone, Copy)]
pub(crate) enum IfaceCount {
    /// `sent`: transmissions.
    Sent,
    /// `accepted`: packets put into the inbox.
    Accepted,
    /// `bad`: frames, or parts of a stream, refused.
    Bad,
    /// `starved`: packets that found no buffer.
    Starved,
    /// `full`: packets that found the inbox full.
    Full,
    /// `toobig`: packets with a longer payload than the link takes.
    TooBig,
}

/// The counts, in the order in which an interface's line has them.
const COUNTS: [IfaceCount; 6] = [
    IfaceCount::Sent,
    IfaceCount::Accepted,
    IfaceCount::Bad,
    IfaceCount::Starved,
    IfaceCount::Full,
    IfaceCount::TooBig,
];

/// The word of a count.
fn count_word(which: IfaceCount) -> &'static str
    ensures { result.now ≡ count_word which }
{
    match which {
        IfaceCount::Sent => "sent",
        IfaceCount::Accepted => "accepted",
        IfaceCount::Bad => "bad",
        IfaceCount::Starved => "starved",
        IfaceCount::Full => "full",
        IfaceCount::TooBig => "toobig",
    }
}

/// How much an event adds to a count.
fn weight(event: Event, which: IfaceCount) -> u64
    ensures { result ≡ weight which event }
{
    match (which, event) {
        (IfaceCount::Sent, Event::Transmitted { .. }) => 1,
        (IfaceCount::Bad, Event::Bad { count }) => u64::from(count),
        (IfaceCount::Starved, Event::Starved) => 1,
        (IfaceCount::Full, Event::InboxFull) => 1,
        (IfaceCount::TooBig, Event::TooBig) => 1,
        _ => 0,
    }
}

/// How much these events add to a count together. Memory is wanting exactly where it is more than 64 bits count.
fn sum_events(events: &[Event], which: IfaceCount) -> Result<u64, AllocError>
    ensures ok { IfOk result (λ sum. sum ≡ sum_by (weight which) events.now) }
    ensures err { OnErr result (2 ^ 64 ≤ sum_by (weight which) events.now) }
{
    let mut sum = 0u64;
    for event in events {
        let Some(more) = sum.checked_add(weight(*event, which)) else {
            return Err(AllocError);
        };
        sum = more;
    }
    Ok(sum)
}

/// Whether this entry put a packet into the inbox.
fn has_accepted(log: &Log, index: u64) -> bool
    requires { index < length log.now.entries }
    ensures { result ≡ option_map_or (λ entry. is_some (put_in (moved_in entry))) (slice_get log.now.entries index) false }
{
    match log.moved(index) {
        Moved::Pushed(QueueId::Inbox, _) => true,
        _ => false,
    }
}

/// How many packets a log put into the inbox.
fn count_accepted(log: &Log) -> u64
    ensures { result ≡ count_by (λ entry. is_some (put_in (moved_in entry))) log.now.entries }
{
    let mut count = 0;
    let mut index = log.next_deed(0);
    while index < log.len() {
        if has_accepted(log, index) {
            count += 1;
        }
        index = log.next_deed(index + 1);
    }
    count
}

/// A count of a log. Memory is wanting exactly where it is more than 64 bits count.
fn count_in(log: &Log, which: IfaceCount) -> Result<u64, AllocError>
    ensures ok { IfOk result (λ count. count ≡ entries_count which log.now.entries) }
    ensures err { OnErr result (2 ^ 64 ≤ entries_count which log.now.entries) }
{
    match which {
        IfaceCount::Accepted => Ok(count_accepted(log)),
        IfaceCount::Sent
        | IfaceCount::Bad
        | IfaceCount::Starved
        | IfaceCount::Full
        | IfaceCount::TooBig => sum_events(log.all_events(), which),
    }
}

/// A count of the party that has this name. Memory is wanting exactly where it is more than 64 bits count.
fn count_at(parties: &[PartyLog], who: Who, which: IfaceCount) -> Result<u64, AllocError>
    ensures ok { IfOk result (λ count. count ≡ entries_count which (entries_at parties.now who)) }
    ensures err { OnErr result (2 ^ 64 ≤ entries_count which (entries_at parties.now who)) }
{
    match party_at(parties, who) {
        Some(party) => count_in(&party.log, which),
        None => Ok(0),
    }
}

/// Appends the words of these counts, each with its number, of the party that has this name.
fn push_counts(
    out: &mut String,
    parties: &[PartyLog],
    who: Who,
    counts: &[IfaceCount],
) -> Result<(), AllocError>
    ensures { OnOk result (string_bytes out.new ≡ string_bytes out.old ++ flat_map (λ which. 32 ∷ (count_word which ++ 32 ∷ decimal (entries_count which (entries_at parties.now who)))) counts.now) }
{
    for which in counts {
        push_counted(out, count_word(*which), count_at(parties, who, *which)?)?;
    }
    Ok(())
}

/// Appends the line of the interface that has this name, of this node and on this link.
fn push_iface(
    out: &mut String,
    parties: &[PartyLog],
    who: Who,
    node: &str,
    link: &str,
) -> Result<(), AllocError>
    ensures { OnOk result (string_bytes out.new ≡ string_bytes out.old ++ ended_line (iface_line node.now link.now (entries_at parties.now who))) }
{
    begin_line(out, "iface")?;
    push_word(out, node)?;
    push_word(out, link)?;
    push_counts(out, parties, who, &COUNTS)?;
    end_line(out)?;
    Ok(())
}

/// Appends the lines of the interfaces of the node at this place, in the order of these links.
fn push_node_ifaces(
    out: &mut String,
    parties: &[PartyLog],
    place: u8,
    node: &str,
    links: &[SceneLink],
) -> Result<(), AllocError>
    requires { length links.now ≤ MAX_LINKS }
    ensures { OnOk result (string_bytes out.new ≡ string_bytes out.old ++ text_of (node_iface_lines parties.now place node.now links.now)) }
{
    let mut number = 0;
    for link in links {
        if link.touches(usize::from(place)) {
            push_iface(
                out,
                parties,
                Who::Iface(place, number),
                node,
                link.name.as_str(),
            )?;
            number += 1;
        }
    }
    Ok(())
}

/// Appends the lines of the interfaces of all nodes.
pub(crate) fn push_ifaces(
    out: &mut String,
    nodes: &[SceneNode],
    links: &[SceneLink],
    run: &Record,
) -> Result<(), AllocError>
    requires nodes { length nodes.now ≤ MAX_NODES }
    requires links { length links.now ≤ MAX_LINKS }
    ensures { OnOk result (string_bytes out.new ≡ string_bytes out.old ++ text_of (flat_map (λ node. node_iface_lines run.now.parties node.0 node.1.name links.now) (enumerate_from 0 nodes.now))) }
{
    for (place, node) in nodes.iter().enumerate() {
        push_node_ifaces(
            out,
            run.parties.as_slice(),
            place as u8,
            node.name.as_str(),
            links,
        )?;
    }
    Ok(())
}
