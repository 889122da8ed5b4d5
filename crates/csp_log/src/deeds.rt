//! How what a log keeps of an entry is read again.

ghost use Rattle.std.specs.Prelude.{◌≡◌, ◌+◌, ◌≤◌, [], ◌++◌, length, vec_len, vec_capacity, OnOk};
ghost use Rattle.csp_buffer.specs.Trails.{trace_of};
ghost use Rattle.csp_log.specs.Framing.{framed_by};
ghost use Rattle.csp_log.specs.Moving.{moved_by};
ghost use Rattle.csp_log.specs.Layout.{IsRoomier, HasTaken};
ghost use Rattle.csp_log.specs.PlainLog.{entry_with};
ghost use Rattle.csp_log.specs.Rows.{packet_of, item_of, op_of, answer_of, row_entry, bytes_in, events_in, IsItemLong, IsDeedLong, IsRowIn};

use crate::framed::read_framed;
use crate::moved::read_moved;
use crate::row::{Deed, ItemHead, LogRow, PacketHead};
use crate::{
    AnswerShown, Entry, Event, Events, Frame, Framed, ItemShown, MAX_EVENTS, Moved, OpShown,
};
use csp_base::MAX_PAYLOAD;
use csp_buffer::{Shown, Trail};
use std::alloc::AllocError;

/// Appends elements for which there is room, and tells where they begin.
pub fn keep<T: Copy>(list: &mut Vec<T>, more: &[T]) -> usize
    requires { vec_len list.old + length more.now ≤ vec_capacity list.old }
    ensures start { result ≡ length list.old.items }
    ensures items { list.new.items ≡ list.old.items ++ more.now }
    ensures len { vec_len list.new ≡ vec_len list.old + length more.now }
    ensures capacity { vec_capacity list.old ≤ vec_capacity list.new }
{
    let start = list.len();
    if !more.is_empty() {
        list.extend_from_slice(more).unwrap();
    }
    start
}

/// Makes room in a list for so many elements more, and for `fewest` of them where it has too little, or for twice as
/// many as it had room for. A refusal changes nothing.
pub fn make_room<T: Copy>(list: &mut Vec<T>, room: usize, fewest: usize) -> Result<(), AllocError>
    ensures same { IsRoomier list.old list.new }
    ensures room { OnOk result (HasTaken list.old list.new room fewest) }
{
    let capacity = list.capacity();
    let free = capacity - list.len();
    if free < room {
        let twice = capacity.saturating_add(free);
        list.reserve_exact(room.max(fewest).max(twice))?;
    }
    Ok(())
}

/// The entry of a row, with these bytes and events.
pub fn entry_of(bytes: &[u8], events: &[Event], row: &LogRow) -> Entry
    requires { IsRowIn (length bytes.now) (length events.now) row.now }
    ensures { result ≡ row_entry bytes.now events.now row.now }
{
    let carried = &bytes[row.first_byte..row.first_byte + row.bytes as usize];
    Entry {
        time: row.time,
        op: read_op(carried, &row.trail, &row.deed),
        answer: read_answer(carried, &row.trail, &row.deed),
        events: events_of(events_at(events, row)),
    }
}

/// What the turn of a row moved.
pub fn moved_of<'a>(bytes: &'a [u8], row: &LogRow) -> Moved<'a>
    requires { row.now.first_byte + row.now.bytes ≤ length bytes.now }
    ensures { result ≡ moved_by (op_of (bytes_in bytes.now row.now) (trace_of row.now.trail) row.now.deed) (answer_of (bytes_in bytes.now row.now) (trace_of row.now.trail) row.now.deed) }
{
    let carried = &bytes[row.first_byte..row.first_byte + row.bytes as usize];
    read_moved(carried, &row.trail, &row.deed)
}

/// The frame that the turn of a row moved.
pub fn framed_of(bytes: &[u8], row: &LogRow) -> Framed
    requires { row.now.first_byte + row.now.bytes ≤ length bytes.now }
    ensures { result ≡ framed_by (op_of (bytes_in bytes.now row.now) (trace_of row.now.trail) row.now.deed) (answer_of (bytes_in bytes.now row.now) (trace_of row.now.trail) row.now.deed) }
{
    let carried = &bytes[row.first_byte..row.first_byte + row.bytes as usize];
    read_framed(carried, &row.trail, &row.deed)
}

/// The events of a row.
pub fn events_at<'a>(events: &'a [Event], row: &LogRow) -> &'a [Event]
    requires { row.now.first_event + row.now.events ≤ length events.now }
    ensures { result.now ≡ events_in events.now row.now }
{
    &events[row.first_event..row.first_event + row.events as usize]
}

/// The entry of a turn that carried and told nothing.
pub fn idle(time: u32, op: OpShown, answer: AnswerShown) -> Entry
    ensures { result ≡ entry_with time (record { op = op; answer = answer }) [] }
{
    Entry {
        time: u64::from(time),
        op,
        answer,
        events: Events::new(),
    }
}

/// These events as one turn's.
fn events_of(events: &[Event]) -> Events
    requires { length events.now ≤ MAX_EVENTS }
    ensures { result.items ≡ events.now }
{
    let mut copy = Events::new();
    copy.try_extend_from_slice(events).unwrap();
    copy
}

/// The operation of a deed with these bytes and this trail.
fn read_op(bytes: &[u8], trail: &Trail, deed: &Deed) -> OpShown
    requires { IsDeedLong (length bytes.now) deed.now }
    ensures { result ≡ op_of bytes.now (trace_of trail.now) deed.now }
{
    match deed {
        Deed::Rested => OpShown::Nothing,
        Deed::Took(_) | Deed::FoundNoBuffer => OpShown::Take,
        Deed::Gave(packet) | Deed::FoundPoolFull(packet) => {
            OpShown::Give(read_packet(bytes, trail, packet))
        }
        Deed::Pushed(queue, item) | Deed::FoundFull(queue, item) => {
            OpShown::Push(*queue, read_item(bytes, trail, item))
        }
        Deed::Popped(queue, _) => OpShown::Pop(*queue),
        Deed::FoundEmpty(queue) => OpShown::Pop(*queue),
    }
}

/// The answer of a deed with these bytes and this trail.
fn read_answer(bytes: &[u8], trail: &Trail, deed: &Deed) -> AnswerShown
    requires { IsDeedLong (length bytes.now) deed.now }
    ensures { result ≡ answer_of bytes.now (trace_of trail.now) deed.now }
{
    match deed {
        Deed::Rested => AnswerShown::Nothing,
        Deed::Took(packet) => AnswerShown::Taken(read_packet(bytes, trail, packet)),
        Deed::FoundNoBuffer => AnswerShown::NoBuffer,
        Deed::Gave(_) => AnswerShown::Given,
        Deed::FoundPoolFull(packet) => AnswerShown::PoolFull(read_packet(bytes, trail, packet)),
        Deed::Pushed(_, _) => AnswerShown::Pushed,
        Deed::FoundFull(_, item) => AnswerShown::Full(read_item(bytes, trail, item)),
        Deed::Popped(_, item) => AnswerShown::Popped(read_item(bytes, trail, item)),
        Deed::FoundEmpty(_) => AnswerShown::Empty,
    }
}

fn read_item(bytes: &[u8], trail: &Trail, item: &ItemHead) -> ItemShown
    requires { IsItemLong (length bytes.now) item.now }
    ensures { result ≡ item_of bytes.now (trace_of trail.now) item.now }
{
    match item {
        ItemHead::Packet { mark, packet } => ItemShown::Packet {
            mark: *mark,
            buffer: read_packet(bytes, trail, packet),
        },
        ItemHead::Frame { can } => { ItemShown::Frame(Frame::of(*can, bytes, trail.trace())) }
        ItemHead::Note(note) => ItemShown::Note(*note),
    }
}

fn read_packet(bytes: &[u8], trail: &Trail, packet: &PacketHead) -> Shown
    requires { length bytes.now ≤ MAX_PAYLOAD }
    ensures { result ≡ packet_of bytes.now (trace_of trail.now) packet.now }
{
    Shown::of(packet.number, packet.header, bytes, trail.trace())
}
