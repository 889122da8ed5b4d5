//! Where each queue of a deck stands.

ghost use Rattle.std.specs.Prelude.{◌≡◌, ◌+◌, ◌*◌, ◌<◌, Some, IsSome};
ghost use Rattle.csp_base.specs.Priority.{prio_number};
ghost use Rattle.csp_lists.specs.Order.{position_of, queue_count};

use csp_base::Prio;
use csp_deck::{Place, QueueId};

/// The lanes of an interface: `Rx`, `Tx` and `Out`.
const IFACE_QUEUES: usize = 3;

/// The lanes of an application: `Down` and `Up`.
const APP_QUEUES: usize = 2;

/// The queues of an inbox, one for each priority.
pub const INBOX_QUEUES: usize = 4;

/// How many interfaces and applications a deck serves, and so which queues it has.
#[derive(Clone, Copy)]
pub struct Shape {
    /// Each has an `Rx`, a `Tx` and an `Out`.
    pub ifaces: u8,
    /// Each has a `Down` and an `Up`.
    pub apps: u8,
}

impl Shape {
    /// How many queues it has.
    pub fn queues(self) -> usize
        ensures { result ≡ queue_count self }
    {
        IFACE_QUEUES * usize::from(self.ifaces) + APP_QUEUES * usize::from(self.apps) + INBOX_QUEUES
    }

    /// The position of the queue of a place.
    pub fn position(self, place: Place) -> usize
        requires { IsSome (position_of self place) }
        ensures { position_of self place ≡ Some result }
    {
        match place {
            Place::Inbox(prio) => self.inbox() + usize::from(prio.number()),
            Place::Lane(queue) => self.lane_position(queue),
            Place::Pool | Place::Router | Place::Iface(_) | Place::App(_) => unreachable!(),
        }
    }

    /// The position of a lane.
    fn lane_position(self, queue: QueueId) -> usize
        requires { IsSome (position_of self (Place.Lane queue)) }
        ensures { position_of self (Place.Lane queue) ≡ Some result }
    {
        let ifaces = usize::from(self.ifaces);
        let apps = usize::from(self.apps);
        match queue {
            QueueId::Rx(number) => usize::from(number),
            QueueId::Tx(number) => ifaces + usize::from(number),
            QueueId::Out(number) => 2 * ifaces + usize::from(number),
            QueueId::Down(number) => 3 * ifaces + usize::from(number),
            QueueId::Up(number) => 3 * ifaces + apps + usize::from(number),
            QueueId::Inbox => unreachable!(),
        }
    }

    /// The position of the first queue of the inbox.
    fn inbox(self) -> usize
        ensures { result ≡ 3 * self.ifaces + 2 * self.apps }
    {
        3 * usize::from(self.ifaces) + 2 * usize::from(self.apps)
    }

    /// The place of the queue at a position.
    pub fn place_at(self, at: usize) -> Place
        requires { at < queue_count self }
        ensures { position_of self result ≡ Some at }
    {
        if at < self.inbox() {
            Place::Lane(self.lane_at(at))
        } else {
            Place::Inbox(urgency(at - self.inbox()))
        }
    }

    /// The lane at a position.
    fn lane_at(self, at: usize) -> QueueId
        requires { at < 3 * self.ifaces + 2 * self.apps }
        ensures { position_of self (Place.Lane result) ≡ Some at }
    {
        let ifaces = usize::from(self.ifaces);
        let apps = usize::from(self.apps);
        if at < ifaces {
            QueueId::Rx(at as u8)
        } else if at < 2 * ifaces {
            QueueId::Tx((at - ifaces) as u8)
        } else if at < 3 * ifaces {
            QueueId::Out((at - 2 * ifaces) as u8)
        } else if at < 3 * ifaces + apps {
            QueueId::Down((at - 3 * ifaces) as u8)
        } else {
            QueueId::Up((at - 3 * ifaces - apps) as u8)
        }
    }
}

/// The priority of this number.
fn urgency(number: usize) -> Prio
    requires { number < 4 }
    ensures { prio_number result ≡ number }
{
    Prio::new(number as u8).unwrap()
}
