//! A packet cut into frames.

ghost use Rattle.std.specs.Prelude.{◌≡◌, ℕ, ◌/◌, ◌%◌, ◌^◌, ◌+◌, ◌<◌, ◌≤◌, length, map};
ghost use Rattle.csp_can.specs.Fragments.{begin_bytes, fragments_of, frames_after};
ghost use Rattle.std.specs.List.{AllByRecursion};
ghost use Rattle.csp_can.specs.Frames.{written, read_frame, IsOnBus};
ghost use Rattle.csp_can.specs.Chains.{Chain, MakesOnly};
ghost use Rattle.csp_can.specs.Alone.{ReadsAs};

use crate::cutter::Fragments;
use crate::frames::{CanFrame, MAX_DATA, copied};
use crate::identifiers::{Identifier, Kind};
use arrayvec::ArrayVec;
use csp_base::{Addr, MAX_PAYLOAD};
use csp_header::Header;

/// How many payload bytes a BEGIN frame carries, beside 4 of the header and 2 of the length.
const FIRST_DATA: usize = 2;

/// The frames of a packet with this header and payload, each filled before the next. `dest` is the
/// node that is to have them next, and `id`, of 10 bits, tells this packet from its neighbours.
pub fn fragments(header: u32, payload: &[u8], dest: Addr, id: u16) -> Fragments
    requires payload { length payload.now ≤ MAX_PAYLOAD }
    requires id { id < 1024 }
    ensures frames { result ≡ map written (fragments_of header payload.now dest id) }

    // Each is one that a bus carries.
    ensures carried { AllByRecursion IsOnBus result }

    // They are a chain, and read alone they are this packet again.
    ensures chain { Chain (map read_frame result) header payload.now }
    ensures alone { (mtu : ℕ) → length payload.now ≤ mtu → ReadsAs mtu (map read_frame result) header payload.now }

    // No other packet can be made of them, whichever come, how often and in what order.
    ensures own { MakesOnly (map read_frame result) header payload.now }

    ensures count { length result ≡ frames_after (length payload.now) + 1 }
{
    let first = payload.len().min(FIRST_DATA);
    let left = ((payload.len() - first + (MAX_DATA - 1)) / MAX_DATA) as u8;
    let head = Identifier {
        source: Header::decode(header).src,
        dest,
        kind: Kind::Begin,
        remain: left,
        id,
    };
    let begin = CanFrame {
        id: head.encode(),
        bytes: begin_data(header, payload),
    };
    Fragments::new(begin, head, payload, first)
}

/// The data of a BEGIN frame: the header, the payload's length, and the first payload bytes.
fn begin_data(header: u32, payload: &[u8]) -> ArrayVec<u8, MAX_DATA>
    requires { length payload.now ≤ MAX_PAYLOAD }
    ensures { result.items ≡ begin_bytes header payload.now }
{
    let first = payload.len().min(FIRST_DATA);
    let mut bytes = copied(&header.to_be_bytes());
    bytes
        .try_extend_from_slice(&(payload.len() as u16).to_be_bytes())
        .unwrap();
    bytes.try_extend_from_slice(&payload[..first]).unwrap();
    bytes
}
