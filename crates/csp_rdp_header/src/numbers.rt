//! The list of numbers in an extended acknowledgement.

ghost use Rattle.std.specs.Prelude.{◌≡◌, ◌≤◌, ◌*◌, ◌%◌, false, length, IsErr, ◌↔◌, OnOk, OnErr, IsTrue};
ghost use Rattle.std.specs.List.{flat_map};
ghost use Rattle.csp_rdp_header.specs.Head.{seq_bytes};
ghost use Rattle.csp_rdp_header.specs.Numbers.{is_malformed, numbers_of};

use crate::BadLength;
use arrayvec::ArrayVec;
use csp_base::Seq;

/// The most numbers of a list that is read.
pub const MAX_LISTED: usize = 128;

/// The most numbers of a list that is written: a receiver keeps no more packets.
pub const MAX_KEPT: usize = 40;

/// Whether bytes are no list of numbers: odd in number, or more than `2 * MAX_LISTED`.
pub fn is_malformed(bytes: &[u8]) -> bool
    ensures { result ≡ is_malformed bytes.now }
{
    bytes.len() % 2 == 1 || bytes.len() > 2 * MAX_LISTED
}

/// Reads a list of numbers, two bytes each, into `out`. A refusal leaves `out` as it was.
pub fn eak_decode(bytes: &[u8], out: &mut ArrayVec<Seq, MAX_LISTED>) -> Result<(), BadLength>
    ensures refused { IsErr result ↔ IsTrue (is_malformed bytes.now) }
    ensures ok { OnOk result (out.new.items ≡ numbers_of bytes.now) }
    ensures whole { OnOk result (bytes.now ≡ flat_map seq_bytes out.new.items) }
    ensures err { OnErr result (out.new ≡ out.old) }
{
    if is_malformed(bytes) {
        return Err(BadLength);
    }
    read_pairs(bytes, out);
    Ok(())
}

/// Writes a list of numbers, two bytes each, into `out`, in place of what stood there.
pub fn eak_encode(list: &[Seq], out: &mut ArrayVec<u8, 80>)
    requires { length list.now ≤ MAX_KEPT }
    ensures value { out.new.items ≡ flat_map seq_bytes list.now }

    // They are read as this list.
    ensures well_formed { is_malformed out.new.items ≡ false }
    ensures back { numbers_of out.new.items ≡ list.now }
{
    out.clear();
    for number in list {
        let [high, low] = number.0.to_be_bytes();
        out.push(high);
        out.push(low);
    }
}

// Reads the numbers of an even number of bytes.
fn read_pairs(bytes: &[u8], out: &mut ArrayVec<Seq, MAX_LISTED>)
    requires even { length bytes.now % 2 ≡ 0 }
    requires room { length bytes.now ≤ 2 * MAX_LISTED }
    ensures value { out.new.items ≡ numbers_of bytes.now }
{
    out.clear();
    let mut rest = bytes;
    while let [high, low, after @ ..] = rest {
        out.push(Seq(u16::from_be_bytes([*high, *low])));
        rest = after;
    }
}
