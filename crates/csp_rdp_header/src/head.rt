//! The head of a packet.

ghost use Rattle.std.specs.Prelude.{◌≡◌, ◌<◌, ◌++◌, ℕ, List, Some, None, length, IsErr, ◌↔◌, IfOk, MatchResult};
ghost use Rattle.csp_rdp_header.specs.Head.{has_flag, head_bytes, parted};

use crate::Short;
use csp_base::Seq;

/// The flag of a reset.
pub const RST: u8 = 0x01;

/// The flag of an extended acknowledgement, whose payload is a list of numbers.
pub const EAK: u8 = 0x02;

/// The flag of a packet that acknowledges.
pub const ACK: u8 = 0x04;

/// The flag of a packet that opens a connection.
pub const SYN: u8 = 0x08;

/// The number of a head's bytes.
pub const HEAD_LEN: usize = 5;

/// The head of the reliable transport, the last five bytes of a payload (before a checksum): flags,
/// sequence number, acknowledgement number, each number the most significant byte first.
#[derive(Clone, Copy)]
pub struct RdpHead {
    pub flags: u8,
    pub seq: Seq,
    pub ack: Seq,
}

impl RdpHead {
    /// What stands before the head at the end of a payload, and that head.
    pub fn decode(payload: &[u8]) -> Result<(&[u8], RdpHead), Short>
        ensures short { IsErr result ↔ (length payload.now < HEAD_LEN) }
        ensures whole { IfOk result (λ read. payload.now ≡ read.0.now ++ head_bytes read.1) }

        // The same as a function of the payload.
        ensures value { MatchResult result
            (λ read. parted payload.now ≡ Some (read.0.now, read.1))
            (λ _. parted payload.now ≡ None) }
    {
        let Some((before, bytes)) = payload.split_last_chunk::<5>() else {
            return Err(Short);
        };
        let &[flags, seq_high, seq_low, ack_high, ack_low] = bytes;
        let head = RdpHead {
            flags,
            seq: Seq(u16::from_be_bytes([seq_high, seq_low])),
            ack: Seq(u16::from_be_bytes([ack_high, ack_low])),
        };
        Ok((before, head))
    }

    /// The five bytes of the head.
    pub fn encode(self) -> [u8; 5]
        ensures value { result ≡ head_bytes self }

        // Behind whatever bytes they stand, they are read as this head.
        ensures back { (before : List ℕ) → parted (before ++ result) ≡ Some (before, self) }
    {
        let [seq_high, seq_low] = self.seq.0.to_be_bytes();
        let [ack_high, ack_low] = self.ack.0.to_be_bytes();
        [self.flags, seq_high, seq_low, ack_high, ack_low]
    }

    /// Whether it has this flag.
    pub fn has(self, flag: u8) -> bool
        ensures { result ≡ has_flag self flag }
    {
        self.flags & flag != 0
    }
}
