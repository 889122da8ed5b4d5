//! What is told of one turn of a party.

ghost use Rattle.std.specs.Prelude.{◌≡◌, ℕ, ◌+◌, ◌-◌, ◌^◌, ◌<◌, ◌≤◌, [], ◌∷◌, ◌++◌, List, map, true, false, None, if◌then◌else◌, length, slice_get, OnOk, IfOk, IfSome};
ghost use Rattle.std.specs.List.{flat_map, list_any};
ghost use Rattle.std.specs.Option.{option_and_then, option_map_or};
ghost use Rattle.csp_log.specs.Idling.{IsIdle};
ghost use Rattle.csp_log.specs.declared.entry.Entry.{Entry};
ghost use Rattle.csp_scene.specs.Scene.{PlainScene};
ghost use Rattle.csp_happenings.specs.Happenings.{along_from, asked_or_told, sent_or_took, answered, accepted, reported_by, reported, at, app_told, iface_told, router_told, happened, moved_frame, number_of, parcel_in, is_beginning, plan_at};
ghost use Rattle.csp_happenings.specs.Numbers.{has, Adds};
ghost use Rattle.csp_happenings.specs.Remembering.{count_of, fate_known, is_link, AreWithin, Counts, Remembers};

use crate::entries::is_idle;
use crate::kinds::{Happening, Parcel, What};
use crate::links::{Carrying, moved_frame};
use crate::parcels::{parcel_in, parcel_of};
use crate::transmissions::{Numbers, note_sent, number_in, was_sent};
use csp_link::Fault;
use csp_log::{Event, Framed, Log, Moved, Noted, QueueId};
use csp_record::Who;
use csp_scene::{Scene, SceneLink};
use std::alloc::{AllocError, Global};
use std::collections::BTreeSet;

/// What is kept in mind of a party's turns: which numbers an interface transmitted, and the frames of a link.
#[derive(Drop)]
pub(crate) struct Memory {
    numbers: Numbers,
    carrying: Carrying,
}

impl Memory {
    /// Of no turn of this party yet.
    fn open(alloc: Global, scene: &Scene, who: Who) -> Result<Memory, AllocError>
        ensures remembers { IfOk result (λ m. Remembers scene.now [] m who) }
        ensures within { IfOk result (λ m. AreWithin 0 m.carrying) }
    {
        let carrying = Carrying::open(alloc, plan_at(scene, who))?;
        Ok(Memory {
            numbers: BTreeSet::new(alloc),
            carrying,
        })
    }
}

/// The plan of the link in this place.
fn plan_of(links: &[SceneLink], place: usize) -> &[Fault]
    ensures { result.now ≡ option_map_or (λ link. link.plan) (slice_get links.now place) [] }
{
    match links.get(place) {
        Some(link) => link.plan.as_slice(),
        None => &[],
    }
}

/// The plan of a party, where it is a link.
fn plan_at(scene: &Scene, who: Who) -> &[Fault]
    ensures { result.now ≡ plan_at scene.now who }
{
    match who {
        Who::Link(place) => plan_of(scene.links.as_slice(), usize::from(place)),
        Who::Router(_) | Who::Bridge(_) | Who::Iface(_, _) | Who::App(_, _) => &[],
    }
}

/// When a turn was, and whose.
#[derive(Clone, Copy)]
struct Turn {
    time: u64,
    who: Who,
}

/// Appends what happened in a turn.
fn push(list: &mut Vec<Happening>, turn: Turn, what: What) -> Result<(), AllocError>
    ensures { OnOk result (list.new.items ≡ list.old.items ++ at turn.time turn.who what ∷ []) }
{
    list.push(Happening {
        time: turn.time,
        who: turn.who,
        what,
    })?;
    Ok(())
}

/// Appends what an application asked, or was told.
fn tell_note(list: &mut Vec<Happening>, turn: Turn, noted: Noted) -> Result<(), AllocError>
    ensures { OnOk result (list.new.items ≡ list.old.items ++ map (at turn.time turn.who) (asked_or_told noted)) }
{
    match noted {
        Noted::Pushed(QueueId::Up(_), note) => push(list, turn, What::Asked(note)),
        Noted::Popped(QueueId::Down(_), note) => push(list, turn, What::Told(note)),
        _ => Ok(()),
    }
}

/// Appends the packet that an application sent, or took.
fn tell_packet(
    list: &mut Vec<Happening>,
    turn: Turn,
    mark: Option<u8>,
    moved: &Moved,
) -> Result<(), AllocError>
    ensures { OnOk result (list.new.items ≡ list.old.items ++ map (at turn.time turn.who) (sent_or_took mark moved.now)) }
{
    match (mark, moved) {
        (Some(mark), Moved::Pushed(QueueId::Up(app), packet)) => {
            let packet = parcel_of(QueueId::Up(*app), packet);
            push(list, turn, What::Sent { mark, packet })
        }
        (Some(mark), Moved::Popped(QueueId::Down(app), packet)) => {
            let packet = parcel_of(QueueId::Down(*app), packet);
            push(list, turn, What::Took { mark, packet })
        }
        _ => Ok(()),
    }
}

/// Appends what a router told an application.
fn tell_answer(list: &mut Vec<Happening>, turn: Turn, noted: Noted) -> Result<(), AllocError>
    ensures { OnOk result (list.new.items ≡ list.old.items ++ map (at turn.time turn.who) (answered noted)) }
{
    match noted {
        Noted::Pushed(QueueId::Down(app), note) => {
            push(list, turn, What::Answered { app, note })
        }
        _ => Ok(()),
    }
}

/// Appends the packet that an interface accepted.
fn tell_accepted(list: &mut Vec<Happening>, turn: Turn, moved: &Moved) -> Result<(), AllocError>
    ensures { OnOk result (list.new.items ≡ list.old.items ++ map (at turn.time turn.who) (accepted moved.now)) }
{
    match moved {
        Moved::Pushed(QueueId::Inbox, packet) => {
            push(
                list,
                turn,
                What::Accepted(parcel_of(QueueId::Inbox, packet)),
            )
        }
        _ => Ok(()),
    }
}

/// Appends what an event tells.
fn tell_event(
    list: &mut Vec<Happening>,
    turn: Turn,
    again: bool,
    packet: Option<Parcel>,
    event: Event,
) -> Result<(), AllocError>
    ensures { OnOk result (list.new.items ≡ list.old.items ++ map (at turn.time turn.who) (reported_by again packet event)) }
{
    match event {
        Event::Transmitted { serial } => {
            push(
                list,
                turn,
                What::Transmitted {
                    serial,
                    again,
                    packet,
                },
            )
        }
        Event::Sent { .. } | Event::Took { .. } => Ok(()),
        Event::BlobTook { .. } | Event::BlobRefused { .. } => {
            push(
                list,
                turn,
                What::Reported {
                    event,
                    packet: None,
                },
            )
        }
        _ => push(list, turn, What::Reported { event, packet }),
    }
}

/// Appends what these events tell.
fn tell_events(
    list: &mut Vec<Happening>,
    turn: Turn,
    again: bool,
    packet: Option<Parcel>,
    events: &[Event],
) -> Result<(), AllocError>
    ensures { OnOk result (list.new.items ≡ list.old.items ++ reported (at turn.time turn.who) again packet events.now) }
{
    for event in events {
        tell_event(list, turn, again, packet, *event)?;
    }
    Ok(())
}

/// Appends what a turn of an application tells.
fn tell_app(
    list: &mut Vec<Happening>,
    turn: Turn,
    noted: Noted,
    mark: Option<u8>,
    moved: &Moved,
    events: &[Event],
) -> Result<(), AllocError>
    ensures { OnOk result (list.new.items ≡ list.old.items ++ app_told (at turn.time turn.who) noted mark moved.now events.now) }
{
    tell_note(list, turn, noted)?;
    tell_packet(list, turn, mark, moved)?;
    tell_events(list, turn, false, parcel_in(moved), events)
}

/// Appends what a turn of a router tells.
fn tell_router(
    list: &mut Vec<Happening>,
    turn: Turn,
    noted: Noted,
    moved: &Moved,
    events: &[Event],
) -> Result<(), AllocError>
    ensures { OnOk result (list.new.items ≡ list.old.items ++ router_told (at turn.time turn.who) noted moved.now events.now) }
{
    tell_answer(list, turn, noted)?;
    tell_events(list, turn, false, parcel_in(moved), events)
}

/// Appends what a turn of an interface of the node in this place tells, and keeps in mind what it transmitted.
fn tell_iface(
    list: &mut Vec<Happening>,
    numbers: &mut Numbers,
    turn: Turn,
    node: u8,
    moved: &Moved,
    events: &[Event],
) -> Result<(), AllocError>
    ensures told { OnOk result (list.new.items ≡ list.old.items ++ iface_told (at turn.time turn.who) (option_map_or (has numbers.old) (option_and_then (number_of node) (parcel_in moved.now)) false) moved.now events.now) }
    ensures numbers { OnOk result (Adds numbers.old numbers.new (if list_any is_beginning events.now then option_and_then (number_of node) (parcel_in moved.now) else None)) }
{
    let packet = parcel_in(moved);
    let number = number_in(node, packet);
    let again = was_sent(numbers, number);
    tell_accepted(list, turn, moved)?;
    tell_events(list, turn, again, packet, events)?;
    note_sent(numbers, events, number)
}

/// Appends what a turn of a link tells, and keeps in mind which frame it took.
fn tell_link(
    list: &mut Vec<Happening>,
    carrying: &mut Carrying,
    turn: Turn,
    framed: Framed,
) -> Result<(), AllocError>
    requires { AreWithin (2 ^ 64 - 2) carrying.old }
    ensures told { OnOk result (list.new.items ≡ list.old.items ++ map (at turn.time turn.who) (moved_frame (count_of carrying.old) (fate_known carrying.old) framed)) }
    ensures counts { Counts carrying.old carrying.new framed }
{
    match moved_frame(carrying, framed) {
        Some(what) => push(list, turn, what),
        None => Ok(()),
    }
}

/// Appends what the turn of the entry of this index tells, and keeps it in mind.
fn tell_entry(
    list: &mut Vec<Happening>,
    memory: &mut Memory,
    who: Who,
    log: &Log,
    index: u64,
) -> Result<(), AllocError>
    requires entry { index < length log.now.entries }
    requires within { AreWithin (2 ^ 64 - 2) memory.old.carrying }
    ensures told { (scene : PlainScene) (before : List Entry) → Remembers scene before memory.old who → OnOk result (IfSome (slice_get log.now.entries index) (λ e. (list.new.items ≡ list.old.items ++ happened scene who before e) × Remembers scene (before ++ e ∷ []) memory.new who)) }
    ensures within { (most : ℕ) → AreWithin most memory.old.carrying → AreWithin (most + 1) memory.new.carrying }
{
    let turn = Turn {
        time: log.time(index),
        who,
    };
    let moved = log.moved(index);
    let noted = log.noted(index);
    let events = log.events(index);
    match who {
        Who::App(_, _) => tell_app(list, turn, noted, log.mark(index), &moved, events),
        Who::Router(_) => tell_router(list, turn, noted, &moved, events),
        Who::Bridge(_) => tell_events(list, turn, false, parcel_in(&moved), events),
        Who::Iface(node, _) => { tell_iface(list, &mut memory.numbers, turn, node, &moved, events) }
        Who::Link(_) => tell_link(list, &mut memory.carrying, turn, log.framed(index)),
    }
}

/// Whether the turn of the entry of this index is one of which nothing is told: an idle one, of a party of a node.
#[inline(always)]
fn is_untold(who: Who, log: &Log, index: u64) -> bool
    requires { index < length log.now.entries }
    ensures { result ≡ true → (is_link who ≡ false) × IfSome (slice_get log.now.entries index) IsIdle }
{
    match who {
        Who::Link(_) => false,
        Who::Router(_) | Who::Bridge(_) | Who::Iface(_, _) | Who::App(_, _) => {
            is_idle(log, index)
        }
    }
}

/// Appends what happened in the turns of this party, by its log.
pub(crate) fn tell_log(
    alloc: Global,
    list: &mut Vec<Happening>,
    scene: &Scene,
    who: Who,
    log: &Log,
) -> Result<(), AllocError>
    ensures { OnOk result (list.new.items ≡ list.old.items ++ along_from (happened scene.now who) [] log.now.entries) }
{
    let mut memory = Memory::open(alloc, scene, who)?;
    for index in 0..log.len() {
        if !is_untold(who, log, index) {
            tell_entry(list, &mut memory, who, log, index)?;
        }
    }
    Ok(())
}
