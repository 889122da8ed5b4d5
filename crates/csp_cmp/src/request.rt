//! Requests.

ghost use Rattle.std.specs.Prelude.{◌≡◌};
ghost use Rattle.csp_cmp.specs.Requests.{code_in};

use crate::{Code, MAX_CHUNK};
use arrayvec::ArrayVec;

/// The bytes of an interface's name in a message. A shorter name is followed by zeros.
pub const NAME_LEN: usize = 11;

/// A request. Its fields stand in this order behind its type and its code, each number the most
/// significant byte first.
#[derive(Drop, Debug)]
pub enum CmpRequest {
    Ident,
    /// Packets to the node `dest` leave by this interface, to the next hop `via`, 255 for none.
    RouteSet {
        dest: u8,
        via: u8,
        iface: [u8; NAME_LEN],
    },
    Stats {
        iface: [u8; NAME_LEN],
    },
    /// The bytes of memory from `addr` on, as many as `len`.
    Peek {
        addr: u32,
        len: u8,
    },
    /// These bytes are the memory's from `addr` on. In a message their number stands before them.
    Poke {
        addr: u32,
        bytes: ArrayVec<u8, MAX_CHUNK>,
    },
    /// The time, where it is not 0 seconds; nanoseconds are beside them.
    Clock {
        sec: u32,
        nsec: u32,
    },
}

impl CmpRequest {
    /// Its code.
    pub fn code(&self) -> Code
        ensures { result ≡ code_in self.now }
    {
        match self {
            CmpRequest::Ident => Code::Ident,
            CmpRequest::RouteSet { .. } => Code::RouteSet,
            CmpRequest::Stats { .. } => Code::Stats,
            CmpRequest::Peek { .. } => Code::Peek,
            CmpRequest::Poke { .. } => Code::Poke,
            CmpRequest::Clock { .. } => Code::Clock,
        }
    }
}
