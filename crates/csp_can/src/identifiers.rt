//! The 29-bit identifier of a CAN frame.

ghost use Rattle.std.specs.Prelude.{◌≡◌, ℕ, ◌<◌, ◌^◌};
ghost use Rattle.csp_can.specs.Identifiers.{identifier_number, identifier_of};

use csp_base::Addr;

/// What a frame does to its packet.
#[derive(Clone, Copy)]
pub enum Kind {
    /// It opens a packet, with the header, the length and the first payload bytes.
    Begin,
    /// It goes on with payload bytes.
    More,
}

/// The parts of an identifier, from the top bit down: 5 bits of source, 5 of destination, 1 of kind,
/// 8 of the number of frames still to come, 10 of the packet's number.
#[derive(Clone, Copy)]
pub struct Identifier {
    pub source: Addr,
    pub dest: Addr,
    pub kind: Kind,
    pub remain: u8,
    pub id: u16,
}

/// What tells a packet on the bus from all others: who sent it, to whom, and its number.
#[derive(Clone, Copy, PartialEq, Eq)]
pub struct Key {
    pub source: Addr,
    pub dest: Addr,
    pub id: u16,
}

impl Identifier {
    ghost use Rattle.csp_can.specs.Identifiers.{key_of};

    /// The key of the packet that the frame belongs to.
    pub fn key(&self) -> Key
        ensures { result ≡ key_of self.now }
    {
        Key {
            source: self.source,
            dest: self.dest,
            id: self.id,
        }
    }

    /// The parts of an identifier of 29 bits.
    pub fn decode(number: u32) -> Identifier
        requires { number < 2 ^ 29 }
        ensures { result ≡ identifier_of number }
    {
        let kind = if (number >> 18) & 1 == 0 {
            Kind::Begin
        } else {
            Kind::More
        };
        Identifier {
            source: Addr::new((number >> 24) as u8).unwrap(),
            dest: Addr::new(((number >> 19) & 31) as u8).unwrap(),
            kind,
            remain: ((number >> 10) & 255) as u8,
            id: (number & 1023) as u16,
        }
    }

    /// The identifier with these parts. The packet's number has 10 bits.
    pub fn encode(&self) -> u32
        requires { self.now.id < 1024 }
        ensures number { result ≡ identifier_number self.now }
        ensures bits { result < 2 ^ 29 }
        ensures dest { self.now.dest < 32 }
    {
        let kind = match self.kind {
            Kind::Begin => 0,
            Kind::More => 1,
        };
        ((self.source.get() as u32) << 24)
            + ((self.dest.get() as u32) << 19)
            + (kind << 18)
            + ((self.remain as u32) << 10)
            + self.id as u32
    }
}
