//! Reads on in bytes that came together, up to the first packet.

ghost use Rattle.std.specs.Prelude.{◌≡◌, ℕ, ◌≤◌, List, ◌++◌, length, take, drop};
ghost use Rattle.csp_kiss.specs.GoingOn.{Gains, read_on};
ghost use Rattle.csp_kiss.specs.Reading.{HasRead};
ghost use Rattle.csp_kiss.specs.Stream.{events};

use crate::{FEND, KissReader};
use arrayvec::ArrayVec;
use csp_base::MAX_PAYLOAD;

/// A packet of a stream, whose CRC stood.
#[derive(Drop)]
pub struct KissPacket {
    /// The header word.
    pub header: u32,
    /// The payload without the CRC of the frame.
    pub payload: ArrayVec<u8, MAX_PAYLOAD>,
}

/// How far a reader went on in some bytes.
#[derive(Drop)]
pub struct KissProgress {
    /// How many of the bytes it read: all, where no packet is whole.
    pub used: usize,
    /// How many pieces were refused on the way.
    pub refused: usize,
    /// The packet that the last of these bytes made whole.
    pub packet: Option<KissPacket>,
}

impl KissReader {
    /// Reads on in some bytes until a packet is whole, or to their end. No event is handed about for a
    /// byte, so that a byte costs no more than its own reading.
    pub fn read_on(&mut self, bytes: &[u8]) -> KissProgress
        ensures state { self.new ≡ (read_on self.old bytes.now).reading }
        ensures refused { result.refused ≡ (read_on self.old bytes.now).refused }
        ensures packet { result.packet ≡ (read_on self.old bytes.now).packet }
        ensures left { drop result.used bytes.now ≡ (read_on self.old bytes.now).left }
        ensures within { result.used ≤ length bytes.now }
        ensures few { result.refused ≤ length bytes.now }

        // Whatever was fed before, the bytes that it used are what it has read besides, and the events of
        // the whole stream gain the refused pieces and the packet, and nothing else.
        ensures read { (stream : List ℕ) → HasRead stream self.old → HasRead (stream ++ take result.used bytes.now) self.new }
        ensures events { (stream : List ℕ) → HasRead stream self.old →
            Gains (events self.old.cover self.old.mtu stream) (events self.old.cover self.old.mtu (stream ++ take result.used bytes.now)) result.refused result.packet }
    {
        self.follow(bytes)
    }

    fn follow(&mut self, bytes: &[u8]) -> KissProgress
        ensures state { self.new ≡ (read_on self.old bytes.now).reading }
        ensures refused { result.refused ≡ (read_on self.old bytes.now).refused }
        ensures packet { result.packet ≡ (read_on self.old bytes.now).packet }
        ensures left { drop result.used bytes.now ≡ (read_on self.old bytes.now).left }
        ensures within { result.used ≤ length bytes.now }
        ensures few { result.refused ≤ length bytes.now }
    {
        let mut refused = 0;
        for (index, &byte) in bytes.iter().enumerate() {
            if byte != FEND {
                self.go_on(byte);
                continue;
            }
            let Some(event) = self.end_piece() else {
                continue;
            };
            match event.packet() {
                Some(packet) => {
                    return KissProgress {
                        used: index + 1,
                        refused,
                        packet: Some(packet),
                    };
                }
                None => refused += 1,
            }
        }
        KissProgress {
            used: bytes.len(),
            refused,
            packet: None,
        }
    }
}
