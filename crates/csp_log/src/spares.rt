//! Frames behind a pointer, and the stock of boxes that they are made from.

ghost use Rattle.std.specs.Prelude.{◌≡◌, ◌+◌, ◌-◌, ◌<◌, ◌≤◌, None, length, max, min, OnOk};
ghost use Rattle.csp_log.specs.Bytes.{with_byte};
ghost use Rattle.csp_log.specs.PlainSpares.{no_spares, with_box, without_box};

use crate::Frame;
use csp_base::{MAX_FRAME, Trace};
use std::alloc::{AllocError, Global};
use std::marker::Model;

/// A frame in an allocation of its own, so that an item is small whatever a link carries. Contracts see
/// it as the frame.
#[derive(Drop)]
pub struct BoxedFrame {
    frame: Box<Frame>,
}

impl Model for BoxedFrame {
    ghost use Rattle.csp_log.specs.declared.frame.Frame.{Frame};

    ghost Value = { Frame };

    ghost view = { λ b. b.frame.value };
}

impl BoxedFrame {
    /// A frame of no bytes, in an allocation of its own.
    fn blank(alloc: Global) -> Result<BoxedFrame, AllocError> {
        let frame = Box::new(alloc, Frame::of(None, &[], Trace::empty()))?;
        Ok(BoxedFrame { frame })
    }

    /// The frame.
    pub fn frame(&self) -> &Frame
        ensures { result.now ≡ self.now }
    {
        &self.frame
    }

    /// Makes it the frame with these parts.
    fn set(&mut self, can: Option<u32>, bytes: &[u8], trace: Trace)
        requires { length bytes.now ≤ MAX_FRAME }
        ensures { self.new ≡ record { can = can; bytes = record { items = bytes.now }; trace = trace } }
    {
        self.frame.set(can, bytes, trace);
    }

    /// Changes one byte of the frame.
    pub fn set_byte(&mut self, index: usize, byte: u8)
        requires { index < length self.old.bytes.items }
        ensures { self.new ≡ with_byte self.old index byte }
    {
        self.frame.set_byte(index, byte);
    }
}

/// A stock of boxes. Who makes frames takes their boxes from it, so that a turn takes no memory, and who
/// uses a frame up puts its box back. Contracts see it as the number of its boxes, and for how many it has room.
#[derive(Drop)]
pub struct Spares {
    boxes: Vec<BoxedFrame>,
    alloc: Global,
}

impl Model for Spares {
    ghost use Rattle.std.specs.Prelude.{vec_len, vec_capacity};
    ghost use Rattle.csp_log.specs.PlainSpares.{PlainSpares};

    ghost Value = { PlainSpares };

    ghost view = { λ s. record { boxes = vec_len s.boxes; room = vec_capacity s.boxes } };
}

impl Spares {
    /// A stock without a box and without room. It takes no memory.
    pub fn new(alloc: Global) -> Spares
        ensures { result ≡ no_spares }
    {
        Spares {
            boxes: Vec::new(alloc),
            alloc,
        }
    }

    /// Makes the stock at least `count` boxes, with no more room than for these. A refusal takes none away.
    pub fn reserve(&mut self, count: usize) -> Result<(), AllocError>
        ensures exact { OnOk result (self.new ≡ record { boxes = max self.old.boxes count; room = max self.old.room count }) }
        ensures kept { self.old.boxes ≤ self.new.boxes }
    {
        let wanted = count.saturating_sub(self.boxes.len());
        self.boxes.reserve_exact(wanted)?;
        self.make(wanted)
    }

    /// Makes so many boxes more, for which there is room.
    fn make(&mut self, count: usize) -> Result<(), AllocError>
        requires { self.old.boxes + count ≤ self.old.room }
        ensures exact { OnOk result (self.new ≡ record { boxes = self.old.boxes + count; room = self.old.room }) }
        ensures kept { self.old.boxes ≤ self.new.boxes }
    {
        for _ in 0..count {
            let frame = BoxedFrame::blank(self.alloc)?;
            self.boxes.push_reserved(frame);
        }
        Ok(())
    }

    /// Makes the stock `count` boxes: those that it wants come from the others, and then from memory, and those that it has
    /// besides go to the others. A refusal leaves it as many as it had, or `count` of them. Then it has room for as many
    /// again, which come back.
    pub fn level(&mut self, count: usize, others: &mut Spares) -> Result<(), AllocError>
        ensures level { OnOk result (self.new ≡ record { boxes = count; room = max self.old.room (count + count) }) }
        ensures others { OnOk result (others.new ≡ record { boxes = self.old.boxes + others.old.boxes - count; room = max others.old.room (self.old.boxes + others.old.boxes - count) }) }
        ensures kept { min self.old.boxes count ≤ self.new.boxes }
    {
        self.fill_up(count, others)?;
        self.hand_over(count, others)?;
        self.boxes.reserve_exact(count)
    }

    /// Makes the stock at least `count` boxes, of the others while there are some. A refusal takes none away.
    fn fill_up(&mut self, count: usize, others: &mut Spares) -> Result<(), AllocError>
        ensures enough { OnOk result (self.new ≡ record { boxes = max self.old.boxes count; room = max self.old.room count }) }
        ensures others { OnOk result (others.new ≡ record { boxes = others.old.boxes - (count - self.old.boxes); room = others.old.room }) }
        ensures kept { self.old.boxes ≤ self.new.boxes }
    {
        let wanted = count.saturating_sub(self.boxes.len());
        self.boxes.reserve_exact(wanted)?;
        self.take_over(wanted.min(others.boxes.len()), others);
        self.reserve(count)
    }

    /// Gives the others what the stock has besides `count` boxes. A refusal leaves it at least `count`.
    fn hand_over(&mut self, count: usize, others: &mut Spares) -> Result<(), AllocError>
        ensures rest { OnOk result (self.new ≡ record { boxes = min self.old.boxes count; room = self.old.room }) }
        ensures others { OnOk result (others.new ≡ record { boxes = others.old.boxes + (self.old.boxes - count); room = max others.old.room (others.old.boxes + (self.old.boxes - count)) }) }
        ensures kept { min self.old.boxes count ≤ self.new.boxes }
    {
        let surplus = self.boxes.len().saturating_sub(count);
        others.boxes.reserve_exact(surplus)?;
        others.take_over(surplus, self);
        Ok(())
    }

    /// Moves so many boxes of the others, which have them, into the stock, which has room for them.
    fn take_over(&mut self, count: usize, others: &mut Spares)
        requires there { count ≤ others.old.boxes }
        requires room { self.old.boxes + count ≤ self.old.room }
        ensures stock { self.new ≡ record { boxes = self.old.boxes + count; room = self.old.room } }
        ensures others { others.new ≡ record { boxes = others.old.boxes - count; room = others.old.room } }
    {
        for _ in 0..count {
            let frame = others.boxes.pop().unwrap();
            self.boxes.push_reserved(frame);
        }
    }

    /// The frame with these parts, in a box of the stock.
    pub fn fill(&mut self, can: Option<u32>, bytes: &[u8], trace: Trace) -> BoxedFrame
        requires stock { 0 < self.old.boxes }
        requires fits { length bytes.now ≤ MAX_FRAME }
        ensures frame { result ≡ record { can = can; bytes = record { items = bytes.now }; trace = trace } }
        ensures stock { self.new ≡ without_box self.old }
    {
        let mut frame = self.boxes.pop().unwrap();
        frame.set(can, bytes, trace);
        frame
    }

    /// A copy of a frame, in a box of the stock.
    pub fn copy(&mut self, frame: &BoxedFrame) -> BoxedFrame
        requires stock { 0 < self.old.boxes }
        ensures frame { result ≡ frame.now }
        ensures stock { self.new ≡ without_box self.old }
    {
        let Frame { can, bytes, trace } = frame.frame();
        self.fill(*can, bytes.as_slice(), *trace)
    }

    /// Puts the box of a frame that is used up back, where there is room for it.
    pub fn keep(&mut self, frame: BoxedFrame)
        ensures stock { self.new ≡ with_box self.old }
        ensures least { self.old.boxes ≤ self.new.boxes }
        ensures most { self.new.boxes ≤ self.old.boxes + 1 }
    {
        if self.boxes.len() < self.boxes.capacity() {
            self.boxes.push_reserved(frame);
        }
    }
}
