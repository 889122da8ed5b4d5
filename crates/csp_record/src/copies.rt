//! How many copies were handed to reliable connections that could not tell them from what they wait for.

ghost use Rattle.std.specs.Prelude.{◌≡◌, ◌-◌, ◌^◌, count_by, min};
ghost use Rattle.std.specs.List.{flat_map};
ghost use Rattle.csp_log.specs.PlainLog.{all_events};
ghost use Rattle.csp_record.specs.Stale.{is_far, names, is_stale_at, is_stale, stale};

use crate::Record;
use csp_base::Tag;
use csp_log::{Event, Log};

/// Half of all sequence numbers: a number shows each index that is less than so far from where its reader stands.
const HALF: u64 = 32_768;

/// Whether an index is so far from where a connection stands that its number need not show it.
fn is_far(index: u64, stand: u64) -> bool
    ensures { result ≡ is_far index stand }
{
    index.abs_diff(stand) >= HALF
}

/// Whether a tag names this flow, a node and the number of the flow there.
fn names(tag: &Tag, flow: (u8, u32)) -> bool
    ensures { result ≡ names tag.now flow }
{
    (tag.node, tag.nth) == flow
}

/// Whether what was handed to a connection is stale: the connection had this peer, what was handed to it this tag,
/// `cur` was the last index delivered and `una` the least unacknowledged.
fn is_stale_at(peer: Option<(u8, u32)>, tag: Option<Tag>, cur: u64, una: u64) -> bool
    ensures { result ≡ is_stale_at peer tag cur una }
{
    match (peer, tag) {
        (None, _) => false,
        (Some(_), None) => true,
        (Some(peer), Some(tag)) => {
            !names(&tag, peer) || is_far(tag.index, cur) || is_far(tag.ack, una)
        }
    }
}

/// Whether an event tells of a stale copy.
fn is_stale(event: &Event) -> bool
    ensures { result ≡ is_stale event.now }
{
    match event {
        Event::Handed {
            peer,
            tag,
            cur,
            una,
            ..
        } => is_stale_at(*peer, *tag, *cur, *una),
        _ => false,
    }
}

/// How many stale copies a party's log tells of.
fn count_copies(log: &Log) -> usize
    ensures { result ≡ count_by is_stale (all_events log.now.entries) }
{
    log.all_events()
        .iter()
        .filter(|event| is_stale(event))
        .count()
}

/// How many packets that were handed to reliable connections were stale copies: the connection had a peer, and the
/// packet no tag, or the tag of another flow, or an index or an acknowledged index half of all numbers or more away
/// from where the connection stood. A connection without a peer counts none. The count stands still at 2^64 - 1.
pub fn stale(run: &Record) -> u64
    ensures { result ≡ min (stale run.now) (2 ^ 64 - 1) }
{
    let mut count = 0u64;
    for party in run.parties.as_slice() {
        count = count.saturating_add(count_copies(&party.log) as u64);
    }
    count
}
