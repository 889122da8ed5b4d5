//! The ends of lanes, and who has them.

ghost use Rattle.std.specs.Prelude.{◌≡◌, ◌<◌, ◌≤◌, ℕ, [], length, map, IfOk, vec_capacity};
ghost use Rattle.std.specs.List.{AllByRecursion, sum_by};
ghost use Rattle.csp_opening.specs.Handed.{AreHanded, HaveRoom, IsAmong, ends_among, ends_of, handed_among, handed_from, handed_of, list_at, room_at};

use crate::lanes::Pair;
use csp_ends::{LaneEnd, Side};
use csp_topology::Wire;
use std::alloc::{AllocError, Global};
use std::collections::VecDeque;

/// A list for each of so many parties, with room for its ends of the lanes of these wires.
pub(crate) fn blank_sides(
    alloc: Global,
    parties: u16,
    wires: &[Vec<Wire>],
) -> Result<Vec<Vec<Side>>, AllocError>
    requires nodes { length wires.now < 256 }
    requires few { AllByRecursion (λ ws. length ws.items < 256) wires.now }
    ensures count { IfOk result (λ r. length r.items ≡ parties) }
    ensures room { IfOk result (λ r. vec_capacity r ≡ parties) }
    ensures none { IfOk result (λ r. (p : ℕ) → list_at r.items p ≡ []) }
    ensures rooms { IfOk result (λ r. (p : ℕ) → p < parties → sum_by (λ ws. ends_among p ws.items) wires.now ≤ room_at r.items p) }
{
    let mut sides = Vec::with_capacity(alloc, usize::from(parties))?;
    for place in 0..parties {
        sides.push_reserved(blank_side(alloc, place, wires)?);
    }
    Ok(sides)
}

/// The list of the party at this place, with just the room for its ends.
fn blank_side(alloc: Global, place: u16, wires: &[Vec<Wire>]) -> Result<Vec<Side>, AllocError>
    requires nodes { length wires.now < 256 }
    requires few { AllByRecursion (λ ws. length ws.items < 256) wires.now }
    ensures none { IfOk result (λ v. v.items ≡ []) }
    ensures room { IfOk result (λ v. vec_capacity v ≡ sum_by (λ ws. ends_among place ws.items) wires.now) }
{
    Vec::with_capacity(alloc, ends_at(place, wires))
}

/// How many ends of the lanes of these wires the party at this place has.
fn ends_at(place: u16, wires: &[Vec<Wire>]) -> usize
    requires nodes { length wires.now < 256 }
    requires few { AllByRecursion (λ ws. length ws.items < 256) wires.now }
    ensures { result ≡ sum_by (λ ws. ends_among place ws.items) wires.now }
{
    let mut count = 0;
    for here in wires {
        count += ends_among(place, here);
    }
    count
}

/// How many of one node.
fn ends_among(place: u16, wires: &[Wire]) -> usize
    requires { length wires.now < 256 }
    ensures count { result ≡ ends_among place wires.now }
    ensures few { result ≤ 512 }
{
    let mut count = 0;
    for wire in wires {
        count += ends_of(place, wire);
    }
    count
}

/// How many of one lane.
fn ends_of(place: u16, wire: &Wire) -> usize
    ensures count { result ≡ ends_of place wire.now }
    ensures few { result ≤ 2 }
{
    usize::from(wire.from.party == place) + usize::from(wire.to.party == place)
}

/// Hands the ends of the lanes of all nodes to their parties.
pub(crate) fn hand_out(nodes: Vec<Vec<Pair>>, sides: &mut Vec<Vec<Side>>)
    requires nodes { length nodes.items < 256 }
    requires few { AllByRecursion (λ pairs. length pairs.items < 256) nodes.items }
    requires among { AllByRecursion (λ pairs. AllByRecursion (IsAmong (length sides.old.items)) pairs.items) nodes.items }
    requires room { HaveRoom sides.old.items (λ p. length (handed_from p 0 (map (λ pairs. pairs.items) nodes.items))) }
    ensures { AreHanded sides.old.items (λ p. handed_from p 0 (map (λ pairs. pairs.items) nodes.items)) sides.new.items }
{
    let mut nodes = VecDeque::from_vec(nodes);
    let mut node = 0;
    while let Some(pairs) = nodes.pop_front() {
        hand_out_at(node, pairs, sides);
        node += 1;
    }
}

/// Hands the ends of the lanes of the node at this place to their parties.
fn hand_out_at(node: u8, pairs: Vec<Pair>, sides: &mut Vec<Vec<Side>>)
    requires few { length pairs.items < 256 }
    requires among { AllByRecursion (IsAmong (length sides.old.items)) pairs.items }
    requires room { HaveRoom sides.old.items (λ p. length (handed_among p node 0 pairs.items)) }
    ensures { AreHanded sides.old.items (λ p. handed_among p node 0 pairs.items) sides.new.items }
{
    let mut pairs = VecDeque::from_vec(pairs);
    let mut lane = 0;
    while let Some(pair) = pairs.pop_front() {
        hand_pair(node, lane, pair, sides);
        lane += 1;
    }
}

/// Hands the two ends of a lane to their parties.
fn hand_pair(node: u8, lane: u8, pair: Pair, sides: &mut Vec<Vec<Side>>)
    requires among { IsAmong (length sides.old.items) pair }
    requires room { HaveRoom sides.old.items (λ p. length (handed_of p node lane pair)) }
    ensures { AreHanded sides.old.items (λ p. handed_of p node lane pair) sides.new.items }
{
    let Pair {
        wire,
        producer,
        consumer,
    } = pair;
    sides[usize::from(wire.from.party)].push_reserved(Side {
        queue: wire.from.queue,
        node,
        lane,
        end: LaneEnd::Puts(producer),
    });
    sides[usize::from(wire.to.party)].push_reserved(Side {
        queue: wire.to.queue,
        node,
        lane,
        end: LaneEnd::Gets(consumer),
    });
}
