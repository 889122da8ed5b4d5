//! What a link carries.

ghost use Rattle.std.specs.Prelude.{◌≡◌, ◌<◌, ◌≤◌, length};
ghost use Rattle.csp_log.specs.Bytes.{with_byte};

use arrayvec::ArrayVec;
use csp_base::{MAX_FRAME, Trace};

/// A frame on a link.
#[derive(Drop)]
pub struct Frame {
    /// The identifier on a CAN link, of 29 bits. `None` on a KISS link.
    pub can: Option<u32>,
    /// The bytes that the link carries: at most 8 on a CAN link.
    pub bytes: ArrayVec<u8, MAX_FRAME>,
    /// The trace of the packet that it carries, or carries a part of.
    pub trace: Trace,
}

impl Frame {
    /// The frame with these parts.
    pub fn of(can: Option<u32>, bytes: &[u8], trace: Trace) -> Frame
        requires { length bytes.now ≤ MAX_FRAME }
        ensures { result ≡ record { can = can; bytes = record { items = bytes.now }; trace = trace } }
    {
        let mut copy = ArrayVec::new();
        copy.try_extend_from_slice(bytes).unwrap();
        Frame {
            can,
            bytes: copy,
            trace,
        }
    }

    /// A copy of it. It takes no memory.
    pub fn copy(&self) -> Frame
        ensures { result ≡ self.now }
    {
        Frame::of(self.can, self.bytes.as_slice(), self.trace)
    }

    /// Makes it the frame with these parts.
    pub fn set(&mut self, can: Option<u32>, bytes: &[u8], trace: Trace)
        requires { length bytes.now ≤ MAX_FRAME }
        ensures { self.new ≡ record { can = can; bytes = record { items = bytes.now }; trace = trace } }
    {
        self.can = can;
        self.bytes.clear();
        self.bytes.try_extend_from_slice(bytes).unwrap();
        self.trace = trace;
    }

    /// Changes one byte of it.
    pub fn set_byte(&mut self, index: usize, byte: u8)
        requires { index < length self.old.bytes.items }
        ensures { self.new ≡ with_byte self.old index byte }
    {
        self.bytes[index] = byte;
    }
}
