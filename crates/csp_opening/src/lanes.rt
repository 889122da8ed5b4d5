//! The lanes of a node.

ghost use Rattle.std.specs.Prelude.{◌≡◌, ◌<◌, ◌≤◌, [], IfOk, OnErr, OnOk, vec_len, vec_capacity};
ghost use Rattle.std.specs.List.{AllByRecursion};
ghost use Rattle.std.specs.Option.{option_map};
ghost use Rattle.csp_consistent.specs.Reading.{is_queue};
ghost use Rattle.csp_opening.specs.Opened.{AreLanes, AreUnused, HasLaneMore, tally_named, told_tally};

use crate::next::next;
use csp_arena::RegionToken;
use csp_ending::LaneRoom;
use csp_lane::{Consumer, Lane, Producer};
use csp_log::QueueId;
use csp_tally::TallyName;
use csp_topology::Wire;
use std::alloc::{AllocError, Global};
use std::collections::VecDeque;
use std::sync::Wait;

/// The two ends of a lane, and who is to use them.
#[derive(Drop)]
pub(crate) struct Pair {
    /// Who uses them.
    pub wire: Wire,
    /// The end that puts.
    pub producer: Producer,
    /// The end that gets.
    pub consumer: Consumer,
}

/// The lanes of a node, the room that the end of each needs, and its ends. They must be spent by `leave`, or taken
/// apart.
pub(crate) struct Lanes {
    /// The lanes.
    pub lanes: Vec<Lane>,
    /// The room of each.
    pub rooms: Vec<LaneRoom>,
    /// The ends of each.
    pub ends: Vec<Pair>,
}

impl Lanes {
    /// The lanes of these wires, for buffers of this region.
    pub(crate) fn open<R: Wait>(
        rt: &R,
        alloc: Global,
        region: &RegionToken,
        wires: &[Wire],
    ) -> Result<Lanes, AllocError>
        requires { AllByRecursion (λ w. 0 < w.room) wires.now }
        ensures { IfOk result (AreLanes region.now.name wires.now) }
    {
        let mut lanes = Lanes::blank(alloc, wires.len())?;
        for wire in wires {
            match lanes.add(alloc, region, wire) {
                Ok(()) => {}
                Err(error) => {
                    lanes.leave(rt);
                    return Err(error);
                }
            }
        }
        Ok(lanes)
    }

    /// No lane yet, and room for so many.
    fn blank(alloc: Global, count: usize) -> Result<Lanes, AllocError>
        ensures none { IfOk result (λ l. (l.lanes.items ≡ []) × (l.rooms.items ≡ []) × (l.ends.items ≡ [])) }
        ensures lanes_room { IfOk result (λ l. vec_capacity l.lanes ≡ count) }
        ensures rooms_room { IfOk result (λ l. vec_capacity l.rooms ≡ count) }
        ensures ends_room { IfOk result (λ l. vec_capacity l.ends ≡ count) }
    {
        let ends = Vec::with_capacity(alloc, count)?;
        let lanes = Vec::with_capacity(alloc, count)?;
        match Vec::with_capacity(alloc, count) {
            Ok(rooms) => Ok(Lanes { lanes, rooms, ends }),
            Err(error) => {
                lanes.destroy_empty();
                Err(error)
            }
        }
    }

    /// Adds the lane of a wire. Its marks tell of the lane that goes down to the application from which it goes up.
    fn add(&mut self, alloc: Global, region: &RegionToken, wire: &Wire) -> Result<(), AllocError>
        requires wire { 0 < wire.now.room }
        requires lanes_room { vec_len self.old.lanes < vec_capacity self.old.lanes }
        requires rooms_room { vec_len self.old.rooms < vec_capacity self.old.rooms }
        requires ends_room { vec_len self.old.ends < vec_capacity self.old.ends }
        ensures added { OnOk result (HasLaneMore region.now.name wire.now self.old self.new) }
        ensures refused { OnErr result (self.new ≡ self.old) }
        ensures lanes_capacity { vec_capacity self.new.lanes ≡ vec_capacity self.old.lanes }
        ensures rooms_capacity { vec_capacity self.new.rooms ≡ vec_capacity self.old.rooms }
        ensures ends_capacity { vec_capacity self.new.ends ≡ vec_capacity self.old.ends }
    {
        let room = LaneRoom::open(alloc, usize::from(wire.room))?;
        let about = told_tally(wire.queue, &self.ends);
        match Lane::open(alloc, region, wire.room, wire.carries, about) {
            Ok((lane, producer, consumer)) => {
                self.lanes.push_reserved(lane);
                self.rooms.push_reserved(room);
                self.ends.push_reserved(Pair {
                    wire: *wire,
                    producer,
                    consumer,
                });
                Ok(())
            }
            Err(error) => {
                room.leave();
                Err(error)
            }
        }
    }

    /// Closes them.
    pub(crate) fn leave<R: Wait>(self, rt: &R)
        requires { AreUnused self.lanes.items self.rooms.items self.ends.items }
    {
        let Lanes { lanes, rooms, ends } = self;
        let mut rooms = VecDeque::from_vec(rooms);
        let mut ends = VecDeque::from_vec(ends);
        let mut lanes = VecDeque::from_vec(lanes);
        while let Some(lane) = lanes.pop_front() {
            let pair = next(&mut ends);
            next(&mut rooms).close(rt, lane, pair.producer, pair.consumer);
        }
        lanes.destroy_empty();
        rooms.destroy_empty();
    }
}

/// The tally of the lane, among these, that the marks of the lane of this name tell of.
fn told_tally(queue: QueueId, before: &[Pair]) -> Option<TallyName>
    ensures { option_map (λ t. t.name) result ≡ told_tally queue before.now }
{
    match queue {
        QueueId::Up(number) => down_tally(number, before),
        QueueId::Inbox | QueueId::Down(_) | QueueId::Out(_) | QueueId::Tx(_) | QueueId::Rx(_) =>
            None,
    }
}

/// The tally of the first of these lanes that goes down to the application of this number.
fn down_tally(number: u8, pairs: &[Pair]) -> Option<TallyName>
    ensures { option_map (λ t. t.name) result ≡ tally_named (QueueId.Down number) pairs.now }
{
    for at in 0..pairs.len() {
        if goes_down(pairs[at].wire.queue, number) {
            return Some(pairs[at].consumer.tally());
        }
    }
    None
}

/// Whether this is the name of the lane that goes down to the application of this number.
fn goes_down(queue: QueueId, number: u8) -> bool
    ensures { result ≡ is_queue (QueueId.Down number) queue }
{
    match queue {
        QueueId::Down(k) => k == number,
        QueueId::Inbox | QueueId::Up(_) | QueueId::Out(_) | QueueId::Tx(_) | QueueId::Rx(_) =>
            false,
    }
}
