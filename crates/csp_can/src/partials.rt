//! Packets of which some frames came.

ghost use Rattle.std.specs.Prelude.{◌≡◌, ◌≤◌, ◌↔◌, IsSome, IfSome, length};
ghost use Rattle.csp_can.specs.Begins.{begin_header, begin_length, begin_payload};

use crate::identifiers::{Identifier, Key};
use arrayvec::ArrayVec;
use csp_base::{Addr, MAX_PAYLOAD, Trace};

/// The most partial packets that are kept.
pub const MAX_PARTIALS: usize = 4;

/// After how many rounds without a frame a partial packet is given up.
pub const GIVE_UP: u64 = 1_000;

/// What is kept of a packet of which some frames came.
#[derive(Drop)]
pub struct Partial {
    pub key: Key,
    pub header: u32,
    /// How many payload bytes the packet has.
    pub length: u16,
    /// The payload bytes that came.
    pub payload: ArrayVec<u8, MAX_PAYLOAD>,
    /// How many frames are still to come, as the last one said.
    pub remain: u8,
    /// When the last frame came.
    pub time: u64,
    /// The trace of the BEGIN frame.
    pub trace: Trace,
}

impl Partial {
    ghost use Rattle.std.specs.Prelude.{◌+◌, ◌<◌, ◌++◌, true, false};
    ghost use Rattle.csp_base.specs.declared.traces.Trace.{Trace};
    ghost use Rattle.csp_can.specs.Rules.{arrival, grown_partial};
    ghost use Rattle.csp_can.specs.Steps.{IsPartWith};

    /// Goes on with a frame's bytes, where the frame is the next one and the packet isn't whole with them.
    /// Whether it did.
    pub(crate) fn go_on(&mut self, head: &Identifier, bytes: &[u8], now: u64) -> bool
        requires fits { self.old.length ≤ MAX_PAYLOAD }
        ensures when { (result ≡ true) ↔ IsPartWith self.old (record { head = head.now; bytes = bytes.now }) }
        ensures grown { result ≡ true → (trace : Trace) → self.new ≡ grown_partial self.old (arrival head.now bytes.now trace now) }
        ensures left { result ≡ false → self.new ≡ self.old }
        ensures length { self.new.length ≡ self.old.length }
    {
        let is_next = head.remain as u16 + 1 == self.remain as u16;
        let is_short = self.payload.len() + bytes.len() < self.length as usize;
        if is_next && is_short && self.payload.try_extend_from_slice(bytes).is_ok() {
            self.remain = head.remain;
            self.time = now;
            return true;
        }
        false
    }
}

impl Default for Partial {
    fn default() -> Partial {
        let nobody = Addr::new(0).unwrap();
        Partial {
            key: Key {
                source: nobody,
                dest: nobody,
                id: 0,
            },
            header: 0,
            length: 0,
            payload: ArrayVec::new(),
            remain: 0,
            time: 0,
            trace: Trace::empty(),
        }
    }
}

/// The data of a BEGIN frame.
#[derive(Clone, Copy)]
pub struct Begin<'a> {
    pub header: u32,
    pub length: u16,
    pub payload: &'a [u8],
}

impl<'a> Begin<'a> {
    /// Reads 4 header bytes, 2 length bytes and what payload bytes follow. None under 6 bytes.
    pub fn read(bytes: &'a [u8]) -> Option<Begin<'a>>
        ensures valid { IsSome result ↔ (6 ≤ length bytes.now) }
        ensures header { IfSome result (λ b. b.header ≡ begin_header bytes.now) }
        ensures length { IfSome result (λ b. b.length ≡ begin_length bytes.now) }
        ensures payload { IfSome result (λ b. b.payload.now ≡ begin_payload bytes.now) }
    {
        let (header, rest) = bytes.split_first_chunk::<4>()?;
        let (length, payload) = rest.split_first_chunk::<2>()?;
        Some(Begin {
            header: u32::from_be_bytes(*header),
            length: u16::from_be_bytes(*length),
            payload,
        })
    }
}
