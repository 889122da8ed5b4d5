//! Writes frames.

ghost use Rattle.std.specs.Prelude.{◌≡◌, ℕ, ◌+◌, ◌*◌, ◌≤◌, [], ◌∷◌, ◌++◌, length};
ghost use Rattle.csp_kiss.specs.Frame.{escaped, frame};
ghost use Rattle.csp_kiss.specs.Stream.{events};

use crate::checksum::checksum;
use crate::{FEND, FESC, KissEvent, TFEND, TFESC};
use arrayvec::ArrayVec;
use csp_base::{MAX_FRAME, MAX_PAYLOAD};

/// Writes one frame of a packet into `out`, in place of what stood there. Its CRC covers the header or not.
pub fn encode(header: u32, payload: &[u8], cover: bool, out: &mut ArrayVec<u8, MAX_FRAME>)
    requires { length payload.now ≤ MAX_PAYLOAD }
    ensures written { out.new.items ≡ frame cover header payload.now }
    // Read again where packets of this length are taken, the frame is this packet and nothing else.
    ensures read { (mtu : ℕ) → length payload.now ≤ mtu →
        events cover mtu out.new.items ≡ KissEvent.Packet header (record { items = payload.now }) ∷ [] }
{
    out.clear();
    out.push(FEND);
    out.push(0);
    push_escaped(&header.to_be_bytes(), out);
    push_escaped(payload, out);
    push_escaped(&checksum(cover, header, payload).to_be_bytes(), out);
    out.push(FEND);
}

// Appends the escaped form of some bytes, for which there is room even where each becomes two.
fn push_escaped(bytes: &[u8], out: &mut ArrayVec<u8, MAX_FRAME>)
    requires { length out.old.items + 2 * length bytes.now ≤ MAX_FRAME }
    ensures items { out.new.items ≡ out.old.items ++ escaped bytes.now }
    ensures fits { length out.new.items ≤ length out.old.items + 2 * length bytes.now }
{
    for &byte in bytes {
        match byte {
            FEND => {
                out.push(FESC);
                out.push(TFEND);
            }
            FESC => {
                out.push(FESC);
                out.push(TFESC);
            }
            _ => out.push(byte),
        }
    }
}
