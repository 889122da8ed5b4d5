//! A packet that is to go out.

ghost use Rattle.std.specs.Prelude.{◌≡◌};
ghost use Rattle.csp_stack.specs.Comes.{IsHop, leaving_of};
ghost use Rattle.csp_stack.specs.Readings.{mark_of};
ghost use Rattle.csp_stack.specs.Rules.{by_row, to_itself, to_slot};

use csp_base::Seat;
use csp_buffer::Buffer;
use csp_deck::{Item, Op, QueueId, UNMARKED};
use csp_route::Row;

/// A packet that the router's next push is of, and the queue and the mark that it goes with.
pub struct Outgoing {
    pub queue: QueueId,
    pub mark: u8,
    pub buffer: Buffer,
}

impl Outgoing {
    /// A packet that goes out by a row of the routing table: to that interface, marked with the next
    /// hop if the row names one.
    pub(crate) fn by_row(row: Row, buffer: Buffer) -> Outgoing
        ensures packet { leaving_of result ≡ by_row row buffer.picture }
        ensures mark { IsHop (mark_of row.via) }
        ensures region { result.buffer.region ≡ buffer.region }
        ensures number { result.buffer.picture.number ≡ buffer.picture.number }
    {
        let mark = match row.via {
            Some(via) => via.get(),
            None => UNMARKED,
        };
        Outgoing {
            queue: QueueId::Out(row.iface),
            mark,
            buffer,
        }
    }

    /// A packet to the node itself: it goes to the inbox, unmarked.
    pub(crate) fn to_itself(buffer: Buffer) -> Outgoing
        ensures packet { leaving_of result ≡ to_itself buffer.picture }
        ensures region { result.buffer.region ≡ buffer.region }
        ensures number { result.buffer.picture.number ≡ buffer.picture.number }
    {
        Outgoing {
            queue: QueueId::Inbox,
            mark: UNMARKED,
            buffer,
        }
    }

    /// A packet to an application, marked with the slot that has its connection.
    pub(crate) fn to_slot(seat: Seat, buffer: Buffer) -> Outgoing
        ensures packet { leaving_of result ≡ to_slot seat buffer.picture }
        ensures region { result.buffer.region ≡ buffer.region }
        ensures number { result.buffer.picture.number ≡ buffer.picture.number }
    {
        Outgoing {
            queue: QueueId::Down(seat.app),
            mark: seat.slot,
            buffer,
        }
    }

    /// Its push.
    pub(crate) fn into_push(self) -> Op
        ensures { result ≡ Op.Push self.queue (Item.Packet self.mark self.buffer) }
    {
        let Outgoing {
            queue,
            mark,
            buffer,
        } = self;
        Op::Push(queue, Item::Packet { mark, buffer })
    }

    /// Its buffer.
    pub(crate) fn into_buffer(self) -> Buffer
        ensures { result ≡ self.buffer }
    {
        let Outgoing {
            queue: _,
            mark: _,
            buffer,
        } = self;
        buffer
    }
}
