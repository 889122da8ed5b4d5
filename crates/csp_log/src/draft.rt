//! The draft of an entry: what a turn asked and was answered, before it is logged.

ghost use Rattle.std.specs.Prelude.{◌≡◌, ◌+◌, ◌≤◌, [], ◌++◌, length, IfOk};
ghost use Rattle.csp_base.specs.Trace.{no_trace};
ghost use Rattle.csp_base.specs.declared.traces.Trace.{Trace};
ghost use Rattle.csp_buffer.specs.Trails.{trace_of};
ghost use Rattle.csp_log.specs.Pictures.{Fits, shown_op, shown_answer};
ghost use Rattle.csp_log.specs.PlainDraft.{drafted};
ghost use Rattle.csp_log.specs.Rows.{draft_of, item_of, packet_of, turned_back, IsDeedLong, IsItemLong};
ghost use Rattle.csp_log.specs.Pictures.{shown_item};

use crate::row::{Deed, ItemHead, PacketHead};
use crate::{Answer, AnswerShown, Item, Op, OpShown, QueueId};
use arrayvec::ArrayVec;
use csp_base::{MAX_FRAME, MAX_PAYLOAD, Trace};
use csp_buffer::{Buffer, Trail};
use std::alloc::{AllocError, Global};
use std::marker::Model;

/// What a turn asks and what it is answered, on the way into a log. Contracts see it as a pair of
/// pictures.
///
/// It took its room when it was opened, for the longest frame and no more, and serves one turn after the other.
#[derive(Drop)]
pub struct Draft {
    pub(crate) deed: Deed,
    pub(crate) trail: Trail,
    pub(crate) bytes: Box<ArrayVec<u8, MAX_FRAME>>,
}

impl Model for Draft {
    ghost use Rattle.csp_log.specs.PlainDraft.{PlainDraft};

    ghost Value = { PlainDraft };

    ghost use Rattle.csp_buffer.specs.Trails.{trace_of};
    ghost use Rattle.csp_log.specs.Rows.{draft_of};
    ghost use Rattle.csp_log.specs.Drafting.{IsKept};

    ghost view = { λ d. draft_of d.bytes.value.items (trace_of d.trail) d.deed };

    ghost invariant = { IsKept };
}

impl Draft {
    /// A draft of a turn that asks nothing.
    ///
    /// # Errors
    /// Want of memory.
    pub fn open(alloc: Global) -> Result<Draft, AllocError>
        ensures { IfOk result (λ d. d ≡ drafted OpShown.Nothing) }
    {
        let bytes = Box::new(alloc, ArrayVec::new())?;
        Ok(Draft {
            deed: Deed::Rested,
            trail: Trail::of(Trace::empty()),
            bytes,
        })
    }

    /// Notes what is asked, with the answer that brings nothing.
    pub fn ask(&mut self, op: &Op)
        ensures { self.new ≡ drafted (shown_op op.now) }
    {
        match op {
            Op::Nothing => self.note(Deed::Rested),
            Op::Take => self.note(Deed::FoundNoBuffer),
            Op::Give(buffer) => self.give(buffer),
            Op::Push(queue, item) => self.push(*queue, item),
            Op::Pop(queue) => self.note(Deed::FoundEmpty(*queue)),
        }
    }

    /// Notes a look into a queue, with the answer that it is empty.
    pub fn look(&mut self, queue: QueueId)
        ensures { self.new ≡ drafted (OpShown.Pop queue) }
    {
        self.note(Deed::FoundEmpty(queue));
    }

    /// Notes an operation that carries nothing.
    fn note(&mut self, deed: Deed)
        requires fits { IsDeedLong 0 deed }
        requires bare { (trace : Trace) → draft_of [] trace deed ≡ draft_of [] no_trace deed }
        ensures { self.new ≡ draft_of [] no_trace deed }
    {
        self.bytes.clear();
        self.deed = deed;
    }

    /// Notes that this buffer is given.
    #[inline(always)]
    fn give(&mut self, buffer: &Buffer)
        ensures { self.new ≡ drafted (OpShown.Give buffer.now.picture) }
    {
        self.bytes.clear();
        self.deed = Deed::Gave(keep_packet(&mut self.bytes, &mut self.trail, buffer));
    }

    /// Notes that this item is pushed.
    #[inline(always)]
    fn push(&mut self, queue: QueueId, item: &Item)
        ensures { self.new ≡ drafted (OpShown.Push queue (shown_item item.now)) }
    {
        self.bytes.clear();
        self.deed = Deed::Pushed(queue, keep_item(&mut self.bytes, &mut self.trail, item));
    }

    /// Notes what that was answered. What comes back is what was handed in.
    pub fn answer(&mut self, answer: &Answer)
        requires asked { self.old ≡ drafted self.old.op }
        requires fits { Fits self.old.op (shown_answer answer.now) }
        ensures { self.new ≡ record { op = self.old.op; answer = shown_answer answer.now } }
    {
        match answer {
            Answer::Taken(buffer) => self.take(buffer),
            Answer::Popped(item) => self.pop(item),
            Answer::PoolFull(_) | Answer::Full(_) => turn_back(&mut self.deed),
            Answer::Nothing | Answer::NoBuffer | Answer::Given | Answer::Pushed | Answer::Empty =>
                {}
        }
    }

    /// Notes that this buffer was taken.
    #[inline(always)]
    fn take(&mut self, buffer: &Buffer)
        ensures { self.new ≡ record { op = OpShown.Take; answer = AnswerShown.Taken buffer.now.picture } }
    {
        self.bytes.clear();
        self.deed = Deed::Took(keep_packet(&mut self.bytes, &mut self.trail, buffer));
    }

    /// Notes that this item was popped.
    #[inline(always)]
    fn pop(&mut self, item: &Item)
        requires asked { self.old ≡ drafted self.old.op }
        requires fits { Fits self.old.op (AnswerShown.Popped (shown_item item.now)) }
        ensures { self.new ≡ record { op = self.old.op; answer = AnswerShown.Popped (shown_item item.now) } }
    {
        if let Deed::FoundEmpty(queue) = self.deed {
            self.bytes.clear();
            self.deed = Deed::Popped(queue, keep_item(&mut self.bytes, &mut self.trail, item));
        }
    }
}

/// What was handed in comes back.
#[inline(always)]
fn turn_back(deed: &mut Deed)
    ensures { deed.new ≡ turned_back deed.old }
{
    *deed = match *deed {
        Deed::Gave(packet) => Deed::FoundPoolFull(packet),
        Deed::Pushed(queue, item) => Deed::FoundFull(queue, item),
        deed => deed,
    };
}

/// Takes in the payload and the trail of a packet, and tells what else it is.
#[inline(always)]
fn keep_packet(
    bytes: &mut ArrayVec<u8, MAX_FRAME>,
    trail: &mut Trail,
    buffer: &Buffer,
) -> PacketHead
    requires none { bytes.old.items ≡ [] }
    ensures packet { packet_of bytes.new.items (trace_of trail.new) result ≡ buffer.now.picture }
    ensures fits { length bytes.new.items ≤ MAX_PAYLOAD }
{
    keep(bytes, buffer.payload());
    *trail = buffer.trail();
    PacketHead {
        header: buffer.header(),
        number: buffer.number(),
    }
}

/// Takes in the bytes and the trail of an item, and tells what else it is.
#[inline(always)]
fn keep_item(bytes: &mut ArrayVec<u8, MAX_FRAME>, trail: &mut Trail, item: &Item) -> ItemHead
    requires none { bytes.old.items ≡ [] }
    ensures item { item_of bytes.new.items (trace_of trail.new) result ≡ shown_item item.now }
    ensures long { IsItemLong (length bytes.new.items) result }
    ensures short { length bytes.new.items ≤ MAX_FRAME }
{
    match item {
        Item::Packet { mark, buffer } => ItemHead::Packet {
            mark: *mark,
            packet: keep_packet(bytes, trail, buffer),
        },
        Item::Frame(frame) => {
            let frame = frame.frame();
            keep(bytes, frame.bytes.as_slice());
            *trail = Trail::of(frame.trace);
            ItemHead::Frame { can: frame.can }
        }
        Item::Note(note) => ItemHead::Note(*note),
    }
}

/// Takes in these bytes besides.
#[inline(always)]
fn keep(bytes: &mut ArrayVec<u8, MAX_FRAME>, more: &[u8])
    requires { length bytes.old.items + length more.now ≤ MAX_FRAME }
    ensures { bytes.new.items ≡ bytes.old.items ++ more.now }
{
    bytes.try_extend_from_slice(more).unwrap();
}
