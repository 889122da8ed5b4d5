//! The queues of a deck at its opening.

ghost use Rattle.std.specs.Prelude.{◌≡◌, OnOk, OnErr, [], slice_index_or};
ghost use Rattle.csp_lists.specs.PlainDeck.{AllEmpty, opening_queues, lane_rule, lane_room, rule_at, room_at};

use crate::queues::Queues;
use crate::shape::Shape;
use csp_deck::{Carries, DOWN_ROOM, LINK_ROOM, OUT_ROOM, Place, QueueId, Rule, UP_ROOM};
use std::alloc::{AllocError, Global};

/// Adds the queues of a shape, empty, in the order of their places. Each of the inbox has room for
/// `inbox` packets; `links` says what the link of each interface carries. A refusal leaves fewer.
pub fn open_queues(
    queues: &mut Queues,
    alloc: Global,
    shape: Shape,
    inbox: u16,
    links: &[Carries],
) -> Result<(), AllocError>
    requires { queues.old.queues ≡ [] }
    ensures ok { OnOk result (queues.new.queues ≡ opening_queues inbox links.now shape) }
    ensures err { OnErr result (AllEmpty queues.new.queues) }
    ensures region { queues.new.region ≡ queues.old.region }
{
    for at in 0..shape.queues() {
        let place = shape.place_at(at);
        queues.add(alloc, place, rule_for(links, place), room_for(inbox, place))?;
    }
    Ok(())
}

/// What the queue of a place carries.
fn rule_for(links: &[Carries], place: Place) -> Rule
    ensures { result ≡ rule_at links.now place }
{
    match place {
        Place::Inbox(prio) => Rule::Priority(prio),
        Place::Lane(queue) => rule_of_lane(links, queue),
        Place::Pool | Place::Router | Place::Iface(_) | Place::App(_) => Rule::Inbox,
    }
}

/// What a lane carries.
fn rule_of_lane(links: &[Carries], queue: QueueId) -> Rule
    ensures { result ≡ lane_rule links.now queue }
{
    match queue {
        QueueId::Up(_) => Rule::Lane(Carries::Up),
        QueueId::Down(_) => Rule::Lane(Carries::Down),
        QueueId::Out(_) => Rule::Lane(Carries::Out),
        QueueId::Tx(number) | QueueId::Rx(number) => Rule::Lane(link_rule(links, number)),
        QueueId::Inbox => Rule::Inbox,
    }
}

/// What the link of an interface carries.
fn link_rule(links: &[Carries], number: u8) -> Carries
    ensures { result ≡ slice_index_or links.now number Carries.Kiss }
{
    match links.get(number as usize) {
        Some(link) => *link,
        None => Carries::Kiss,
    }
}

/// For how many items the queue of a place has room.
fn room_for(inbox: u16, place: Place) -> u16
    ensures { result ≡ room_at inbox place }
{
    match place {
        Place::Inbox(_) => inbox,
        Place::Lane(queue) => room_of_lane(queue),
        Place::Pool | Place::Router | Place::Iface(_) | Place::App(_) => 0,
    }
}

/// For how many items a lane has room.
fn room_of_lane(queue: QueueId) -> u16
    ensures { result ≡ lane_room queue }
{
    match queue {
        QueueId::Up(_) => UP_ROOM,
        QueueId::Down(_) => DOWN_ROOM,
        QueueId::Out(_) => OUT_ROOM,
        QueueId::Tx(_) | QueueId::Rx(_) => LINK_ROOM,
        QueueId::Inbox => 0,
    }
}
