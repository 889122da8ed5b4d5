//! A picture of a buffer.

ghost use Rattle.std.specs.Prelude.{◌≡◌, ◌≤◌, length};

use arrayvec::ArrayVec;
use csp_base::{MAX_PAYLOAD, Trace};
use std::marker::Model;

/// What a buffer held at one moment, for a log. Contracts see it as a `Content`, and a buffer as its picture and its region.
#[derive(Drop, Clone)]
pub struct Shown {
    pub number: u16,
    pub header: u32,
    pub payload: ArrayVec<u8, MAX_PAYLOAD>,
    pub trace: Trace,
}

impl Model for Shown {
    ghost use Rattle.csp_buffer.specs.Content.{Content};

    ghost Value = { Content };

    ghost view = { λ s. record { number = s.number; header = s.header; payload = s.payload.items; trace = s.trace } };

    ghost inverse = { λ c. record { number = c.number; header = c.header; payload = record { items = c.payload }; trace = c.trace } };
}

impl Shown {
    /// The picture with these parts.
    pub fn of(number: u16, header: u32, payload: &[u8], trace: Trace) -> Shown
        requires { length payload.now ≤ MAX_PAYLOAD }
        ensures { result ≡ record { number = number; header = header; payload = payload.now; trace = trace } }
    {
        let mut copy = ArrayVec::new();
        copy.try_extend_from_slice(payload).unwrap();
        Shown {
            number,
            header,
            payload: copy,
            trace,
        }
    }
}
