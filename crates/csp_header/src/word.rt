//! The header and its word.

use crate::flags::FlagSet;
use crate::parts::{address_at, port_at, priority_at};
use bitflags::Flags;
use csp_base::{Addr, Port, Prio};

/// The header of a packet.
#[derive(Clone, Copy)]
pub struct Header {
    /// The priority, 2 bits.
    pub prio: Prio,
    /// The node that sent the packet, 5 bits.
    pub src: Addr,
    /// The node that it is for, 5 bits.
    pub dst: Addr,
    /// The port that it is for, 6 bits.
    pub dport: Port,
    /// The port that it came from, 6 bits.
    pub sport: Port,
    /// The flags, 8 bits.
    pub flags: FlagSet,
}

impl Header {
    ghost use Rattle.std.specs.Prelude.{◌≡◌};
    ghost use Rattle.csp_header.specs.Word.{word_of, header_at, IsInRange};

    /// The header that has this word. Every word is a header.
    pub fn decode(word: u32) -> Header
        ensures word { word_of result ≡ word }
        ensures fields { result ≡ header_at word }
        ensures range { IsInRange result }
    {
        Header {
            prio: priority_at(word),
            src: address_at(word >> 25),
            dst: address_at(word >> 20),
            dport: port_at(word >> 14),
            sport: port_at(word >> 8),
            flags: FlagSet::from_bits_retain((word & 0xff) as u8),
        }
    }

    /// The word of this header. `decode` gives the header back.
    pub fn encode(self) -> u32
        ensures word { result ≡ word_of self }
        ensures fields { header_at result ≡ self }
        ensures range { IsInRange self }
    {
        let prio = u32::from(self.prio.number());
        let src = u32::from(self.src.get());
        let dst = u32::from(self.dst.get());
        let dport = u32::from(self.dport.get());
        let sport = u32::from(self.sport.get());
        let flags = u32::from(self.flags.bits());
        let addresses = (prio << 5 | src) << 5 | dst;
        let ports = (addresses << 6 | dport) << 6 | sport;
        ports << 8 | flags
    }
}
