//! Writes replies.

ghost use Rattle.std.specs.Prelude.{◌≡◌, ◌+◌, ◌*◌, ◌≤◌, ◌++◌, length, replicate};
ghost use Rattle.std.specs.List.{flat_map};
ghost use Rattle.std.specs.Int.{to_be_bytes, w32};
ghost use Rattle.csp_cmp.specs.Replies.{clock_bytes, ident_bytes, padded, peek_bytes, same_bytes, stats_bytes};

use crate::{CmpRequest, MAX_CHUNK, NAME_LEN};
use arrayvec::ArrayVec;
use csp_base::MAX_PAYLOAD;

/// The type of a reply.
pub const REPLY: u8 = 0xFF;

/// The most bytes of a reply: a checksum still fits behind it into a packet.
pub const MAX_REPLY: usize = MAX_PAYLOAD - 4;

/// How many things an interface counts.
pub const COUNTS: usize = 10;

/// What a node says that it is.
pub const MODEL: &str = "csp bench";

/// Which of them.
pub const REVISION: &str = "profile 1";

/// Of which day.
pub const DATE: &str = "2000-01-01";

/// And of which time of it.
pub const TIME: &str = "00:00:00";

/// The bytes of a node's name in a reply.
pub const HOST_ROOM: usize = 20;

/// The bytes of the model.
pub const MODEL_ROOM: usize = 30;

/// The bytes of the revision.
pub const REVISION_ROOM: usize = 20;

/// The bytes of the date.
pub const DATE_ROOM: usize = 12;

/// The bytes of the time.
pub const TIME_ROOM: usize = 9;

/// A reply as it is written.
pub type CmpReply = ArrayVec<u8, MAX_REPLY>;

/// Writes the reply that repeats its request, in place of what stood there.
pub fn same_reply(request: &CmpRequest, out: &mut CmpReply)
    ensures { out.new.items ≡ same_bytes request.now }
{
    out.clear();
    out.push(REPLY);
    out.push(request.code().number());
    match request {
        CmpRequest::Ident => {}
        CmpRequest::RouteSet { dest, via, iface } => {
            out.push(*dest);
            out.push(*via);
            push_all(iface, out);
        }
        CmpRequest::Stats { iface } => push_all(iface, out),
        CmpRequest::Peek { addr, len } => {
            push_number(*addr, out);
            out.push(*len);
        }
        CmpRequest::Poke { addr, bytes } => {
            push_number(*addr, out);
            out.push(bytes.len() as u8);
            push_all(bytes.as_slice(), out);
        }
        CmpRequest::Clock { sec, nsec } => {
            push_number(*sec, out);
            push_number(*nsec, out);
        }
    }
}

/// Writes the reply of the node of this name to the question who it is.
pub fn ident_reply(host: &str, out: &mut CmpReply)
    requires { length host.now ≤ HOST_ROOM }
    ensures { out.new.items ≡ ident_bytes host.now }
{
    same_reply(&CmpRequest::Ident, out);
    push_padded(host, HOST_ROOM, out);
    push_padded(MODEL, MODEL_ROOM, out);
    push_padded(REVISION, REVISION_ROOM, out);
    push_padded(DATE, DATE_ROOM, out);
    push_padded(TIME, TIME_ROOM, out);
}

/// Writes the reply to a question for what an interface counted, with its name as it came.
pub fn stats_reply(iface: [u8; NAME_LEN], counts: &[u32; COUNTS], out: &mut CmpReply)
    ensures { out.new.items ≡ stats_bytes iface counts.now }
{
    same_reply(&CmpRequest::Stats { iface }, out);
    push_numbers(counts, out);
}

/// Writes the reply to a question for memory: these are the bytes from `addr` on.
pub fn peek_reply(addr: u32, bytes: &[u8], out: &mut CmpReply)
    requires { length bytes.now ≤ MAX_CHUNK }
    ensures { out.new.items ≡ peek_bytes addr bytes.now }
{
    let len = bytes.len() as u8;
    same_reply(&CmpRequest::Peek { addr, len }, out);
    push_all(bytes, out);
}

/// Writes the reply to a question for the time, or to one that sets it: the time as it is now.
pub fn clock_reply(sec: u32, nsec: u32, out: &mut CmpReply)
    ensures { out.new.items ≡ clock_bytes sec nsec }
{
    same_reply(&CmpRequest::Clock { sec, nsec }, out);
}

/// Appends bytes.
fn push_all(bytes: &[u8], out: &mut CmpReply)
    requires { length out.old.items + length bytes.now ≤ MAX_REPLY }
    ensures { out.new.items ≡ out.old.items ++ bytes.now }
{
    out.try_extend_from_slice(bytes).unwrap();
}

/// Appends a number of 32 bits, the most significant byte first.
fn push_number(number: u32, out: &mut CmpReply)
    requires { length out.old.items + 4 ≤ MAX_REPLY }
    ensures value { out.new.items ≡ out.old.items ++ to_be_bytes w32 number }
    ensures count { length out.new.items ≡ length out.old.items + 4 }
{
    push_all(&number.to_be_bytes(), out);
}

/// Appends numbers of 32 bits.
fn push_numbers(numbers: &[u32], out: &mut CmpReply)
    requires { length out.old.items + 4 * length numbers.now ≤ MAX_REPLY }
    ensures { out.new.items ≡ out.old.items ++ flat_map (to_be_bytes w32) numbers.now }
{
    for number in numbers {
        push_number(*number, out);
    }
}

/// Appends a text in a field of so many bytes: behind it stand zeros.
fn push_padded(text: &str, room: usize, out: &mut CmpReply)
    requires short { length text.now ≤ room }
    requires fits { length out.old.items + room ≤ MAX_REPLY }
    ensures value { out.new.items ≡ out.old.items ++ padded text.now room }
    ensures count { length out.new.items ≡ length out.old.items + room }
{
    push_all(text.as_bytes(), out);
    push_zeros(room - text.len(), out);
}

/// Appends so many zeros.
fn push_zeros(count: usize, out: &mut CmpReply)
    requires { length out.old.items + count ≤ MAX_REPLY }
    ensures { out.new.items ≡ out.old.items ++ replicate count 0 }
{
    for _ in 0..count {
        out.push(0);
    }
}
