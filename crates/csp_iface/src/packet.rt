//! A packet that came whole, and has no buffer yet.

ghost use Rattle.std.specs.Prelude.{◌≡◌, ◌≤◌, Some, None, length};
ghost use Rattle.std.specs.Option.{is_some};
ghost use Rattle.csp_buffer.specs.PlainBuffer.{with_picture};
ghost use Rattle.csp_deck.specs.Step.{IsCleared};
ghost use Rattle.csp_iface.specs.Telling.{filled};

use arrayvec::ArrayVec;
use csp_base::{MAX_PAYLOAD, Trace};
use csp_buffer::Buffer;
use std::marker::Model;

/// A whole packet: its header word, its payload and its trace, which has this hop in it.
#[derive(Drop)]
pub struct WholePacket {
    pub header: u32,
    pub payload: ArrayVec<u8, MAX_PAYLOAD>,
    pub trace: Trace,
}

/// A place for one whole packet, which is written where it stands, so that no turn moves as many bytes as the longest
/// payload has. Contracts see it as the packet, if there is one.
#[derive(Drop)]
pub struct Whole {
    is_here: bool,
    packet: WholePacket,
}

impl Model for Whole {
    ghost use Rattle.std.specs.Prelude.{Option, Some, None, if◌then◌else◌};
    ghost use Rattle.csp_iface.specs.declared.packet.WholePacket.{WholePacket};

    ghost Value = { Option WholePacket };

    ghost view = { λ w. if w.is_here then Some w.packet else None };
}

impl Whole {
    /// No packet.
    pub fn none() -> Whole
        ensures { result ≡ None }
    {
        Whole {
            is_here: false,
            packet: WholePacket {
                header: 0,
                payload: ArrayVec::new(),
                trace: Trace::empty(),
            },
        }
    }

    /// Whether there is a packet.
    #[inline(always)]
    pub fn is_some(&self) -> bool
        ensures { result ≡ is_some self.now }
    {
        self.is_here
    }

    /// Makes it the packet with these parts.
    pub fn set(&mut self, header: u32, payload: &[u8], trace: Trace)
        requires { length payload.now ≤ MAX_PAYLOAD }
        ensures { self.new ≡ Some (record { header = header; payload = record { items = payload.now }; trace = trace }) }
    {
        self.packet.header = header;
        self.packet.payload.clear();
        self.packet.payload.try_extend_from_slice(payload).unwrap();
        self.packet.trace = trace;
        self.is_here = true;
    }

    /// The packet is no longer wanted.
    pub fn clear(&mut self)
        ensures { self.new ≡ None }
    {
        self.is_here = false;
    }

    /// Writes it, where there is one, into a cleared buffer.
    pub fn fill(&self, buffer: Buffer) -> Buffer
        requires { IsCleared buffer.picture }
        ensures { result ≡ with_picture buffer (filled self.now buffer.picture) }
    {
        if self.is_here {
            self.packet.fill(buffer)
        } else {
            buffer
        }
    }
}

impl WholePacket {
    /// Writes it into a cleared buffer.
    fn fill(&self, buffer: Buffer) -> Buffer
        requires { IsCleared buffer.picture }
        ensures { result ≡ with_picture buffer (filled (Some self.now) buffer.picture) }
    {
        let mut buffer = buffer;
        buffer.set_header(self.header);
        buffer.push_tail(self.payload.as_slice()).unwrap();
        buffer.set_trace(self.trace);
        buffer
    }
}
