//! A lane alone, and between two threads.

ghost use Rattle.std.specs.Prelude.{◌≡◌, ◌+◌, ◌<◌, ◌≤◌, IfOk, None, vec_len, vec_capacity};
ghost use Rattle.csp_lane.specs.Ends.{IsEndOf};
ghost use Rattle.csp_log.specs.declared.places.Carries.TheVariants.{Up};
ghost use Rattle.csp_base.specs.declared.limits.TheConstants.{SLOTS};

use csp_arena::{Region, RegionToken};
use csp_deck::{Carries, Item, Note};
use csp_lane::{Consumer, Lane, Producer};
use std::alloc::{AllocError, Global};
use std::mem::ManuallyDrop;
use std::sync::Wait;
use std::test::*;
use std::thread;
use std::thread::Threads;

/// So many items go through the lane.
const ITEMS: u32 = 1000;

/// So often each thread tries, at most.
const TRIES: u32 = 1_000_000;

/// Puts a request that names this slot, and says whether there was room.
fn put_one<R: Wait>(rt: &R, lane: &Lane, producer: &mut Producer, slot: u8) -> bool
    requires end { IsEndOf lane.now producer.old × (producer.old.carries ≡ Up) }
    requires slot { slot < SLOTS }
    ensures { IsEndOf lane.now producer.new × (producer.new.carries ≡ Up) }
{
    match lane.push(rt, producer, Item::Note(Note::Close { slot }), None) {
        Ok(()) => true,
        Err(back) => {
            spend(back);
            false
        }
    }
}

/// Puts requests that name the slots in turn, and says how many it put.
fn put_all<R: Wait>(rt: &R, lane: &Lane, mut producer: Producer) -> (Producer, u32)
    requires { IsEndOf lane.now producer × (producer.carries ≡ Up) }
    ensures { IsEndOf lane.now result.0 }
{
    let mut put: u32 = 0;
    for _ in 0..TRIES {
        if put >= ITEMS {
            break;
        }
        let slot = (put % 4) as u8;
        if put_one(rt, lane, &mut producer, slot) {
            put += 1;
        } else {
            thread::yield_now();
        }
    }
    (producer, put)
}

/// Gets items until it has all, and says how many it got and whether they came in turn.
fn get_all<R: Wait>(rt: &R, lane: &Lane, mut consumer: Consumer) -> (Consumer, u32, bool)
    requires { IsEndOf lane.now consumer × (consumer.about ≡ None) }
    ensures { IsEndOf lane.now result.0 }
{
    let mut got: u32 = 0;
    let mut in_turn = true;
    for _ in 0..TRIES {
        if got >= ITEMS {
            break;
        }
        match lane.pop(rt, &mut consumer) {
            Some(item) => {
                let slot = u32::from(spend(item));
                in_turn = in_turn && slot == got % 4;
                got += 1;
            }
            None => thread::yield_now(),
        }
    }
    (consumer, got, in_turn)
}

/// The slot that a request to close names. No other item goes through these lanes.
fn spend(item: Item) -> u8 {
    match item {
        Item::Note(Note::Close { slot }) => slot,
        other => {
            let _other = unsafe { ManuallyDrop::new_unchecked(other) };
            u8::MAX
        }
    }
}

/// How many items two threads put and got, and whether those came in turn; what is left is appended.
fn relay<R: Threads + Wait + Sync>(
    rt: &R,
    lane: Lane,
    producer: Producer,
    consumer: Consumer,
    into: &mut Vec<Item>,
) -> (u32, u32, bool)
    requires ends { IsEndOf lane producer × IsEndOf lane consumer × (producer.carries ≡ Up) }
    requires plain { consumer.about ≡ None }
    requires room { vec_len into.old + lane.room ≤ vec_capacity into.old }
{
    let line = &lane;
    let ((producer, put), (consumer, got, in_turn)) = thread::join(
        rt,
        move ||
            requires { IsEndOf line.now producer × (producer.carries ≡ Up) }
            ensures { IsEndOf line.entry.now result.0 }
        { put_all(rt, line, producer) },
        move ||
            requires { IsEndOf line.now consumer × (consumer.about ≡ None) }
            ensures { IsEndOf line.entry.now result.0 }
        { get_all(rt, line, consumer) },
    );
    lane.close(rt, producer, consumer, into);
    (put, got, in_turn)
}

/// Whether the items go on in turn after so many, and how many there are then. They are spent.
fn goes_on(mut items: Vec<Item>, before: u32) -> (u32, bool) {
    let mut count = before;
    let mut in_turn = true;
    items.reverse();
    while let Some(item) = items.pop() {
        let slot = u32::from(spend(item));
        in_turn = in_turn && slot == count % 4;
        count = count.wrapping_add(1);
    }
    items.destroy_empty();
    (count, in_turn)
}

/// Whether each of three requests had room, and which slot the first names that is got; what is left is appended.
fn put_three<R: Wait>(
    rt: &R,
    lane: Lane,
    mut producer: Producer,
    mut consumer: Consumer,
    into: &mut Vec<Item>,
) -> ([bool; 3], Option<u8>)
    requires ends { IsEndOf lane producer × IsEndOf lane consumer × (producer.carries ≡ Up) }
    requires plain { consumer.about ≡ None }
    requires room { vec_len into.old + lane.room ≤ vec_capacity into.old }
{
    let had_room = [
        put_one(rt, &lane, &mut producer, 0),
        put_one(rt, &lane, &mut producer, 1),
        put_one(rt, &lane, &mut producer, 2),
    ];
    let first = lane.pop(rt, &mut consumer).map(spend);
    lane.close(rt, producer, consumer, into);
    (had_room, first)
}

/// A list with room for so many, and a lane for requests with room for as many.
fn opened(alloc: Global, capacity: u16) -> Result<(Vec<Item>, Lane, Producer, Consumer), AllocError>
    requires { 0 < capacity }
    ensures { IfOk result (λ p. IsEndOf p.1 p.2 × IsEndOf p.1 p.3 × (p.2.carries ≡ Up) × (p.3.about ≡ None) × (vec_len p.0 + p.1.room ≤ vec_capacity p.0)) }
{
    let (region, cells) = Region::open(alloc, 1, 260)?;
    let token = RegionToken::of(&region);
    region.close(cells);
    let into = Vec::with_capacity(alloc, usize::from(capacity))?;
    match Lane::open(alloc, &token, capacity, Carries::Up, None) {
        Ok((lane, producer, consumer)) => Ok((into, lane, producer, consumer)),
        Err(error) => {
            into.destroy_empty();
            Err(error)
        }
    }
}

#[test]
fn a_full_lane_refuses_and_what_is_left_comes_at_the_close(rt: HostRuntime) -> Result<(), Fail> {
    let (mut into, lane, producer, consumer) = opened(rt.alloc(), 2)?;
    let (had_room, first) = put_three(&rt, lane, producer, consumer, &mut into);
    assert_eq!(rt;
        (had_room, first, goes_on(into, 1)),
        ([true, true, false], Some(0), (2, true))
    );
    Ok(())
}

#[test]
fn what_was_got_and_then_what_is_left_is_what_was_put(rt: HostRuntime) -> Result<(), Fail> {
    let (mut into, lane, producer, consumer) = opened(rt.alloc(), 4)?;
    let (put, got, in_turn) = relay(&rt, lane, producer, consumer, &mut into);
    let (count, goes_on) = goes_on(into, got);
    assert_eq!(rt; (count, in_turn, goes_on), (put, true, true));
    Ok(())
}
