//! The packets that steps send.

ghost use Rattle.std.specs.Prelude.{◌≡◌, ◌+◌, ◌%◌, ◌^◌, ◌<◌, ◌≤◌, [], ◌++◌, length, map};
ghost use Rattle.std.specs.List.{range_with_len};
ghost use Rattle.csp_app.specs.Making.{batch_of, blob_piece, burst_bytes, filled};
ghost use Rattle.csp_app.specs.Placing.{plain_step};
ghost use Rattle.csp_app.specs.Room.{IsStep};
ghost use Rattle.csp_buffer.specs.PlainBuffer.{with_picture};
ghost use Rattle.csp_sfp.specs.Pieces.{piece_count};
ghost use Rattle.csp_sfp.specs.Trailer.{trailer_bytes};

use crate::Step;
use arrayvec::ArrayVec;
use csp_base::MAX_PAYLOAD;
use csp_buffer::Buffer;
use csp_log::UNMARKED;
use csp_sfp::{MAX_SIZE, TRAILER_LEN, trailer_bytes};

/// The mark of a step's packets: their slot, or none where they are sent as they are.
pub fn mark_of(step: &Step<'_>) -> u8
    ensures { result ≡ (batch_of (plain_step step.now)).mark }
{
    match step {
        Step::Send { slot, .. } | Step::Burst { slot, .. } | Step::Blob { slot, .. } => *slot,
        Step::Raw { .. }
        | Step::Take
        | Step::Give
        | Step::Bind { .. }
        | Step::Connect { .. }
        | Step::Recv { .. }
        | Step::Collect { .. }
        | Step::Close { .. }
        | Step::Wait { .. } => UNMARKED,
    }
}

/// How many packets a step sends.
pub fn packets_of(step: &Step<'_>) -> u32
    requires { IsStep (plain_step step.now) }
    ensures { result ≡ (batch_of (plain_step step.now)).count }
{
    match step {
        Step::Send { .. } | Step::Raw { .. } => 1,
        Step::Burst { count, .. } => *count,
        Step::Blob { len, size, .. } => pieces_of(*len, *size),
        Step::Take
        | Step::Give
        | Step::Bind { .. }
        | Step::Connect { .. }
        | Step::Recv { .. }
        | Step::Collect { .. }
        | Step::Close { .. }
        | Step::Wait { .. } => 0,
    }
}

/// A step's packet of this number, from 0, in a buffer.
pub fn filled(step: &Step<'_>, number: u32, buffer: Buffer) -> Buffer
    requires { IsStep (plain_step step.now) }
    ensures { result ≡ with_picture buffer (filled (batch_of (plain_step step.now)) number buffer.picture) }
{
    let mut buffer = buffer;
    buffer.clear();
    match step {
        Step::Send { bytes, .. } => buffer.push_tail(bytes).unwrap(),
        Step::Burst { len, .. } => push_burst(&mut buffer, u64::from(*len), u64::from(number)),
        Step::Blob { len, size, .. } => push_piece(&mut buffer, *len, *size, number),
        Step::Raw { header, bytes } => {
            buffer.set_header(*header);
            buffer.push_tail(bytes).unwrap();
        }
        Step::Take
        | Step::Give
        | Step::Bind { .. }
        | Step::Connect { .. }
        | Step::Recv { .. }
        | Step::Collect { .. }
        | Step::Close { .. }
        | Step::Wait { .. } => {}
    }
    buffer
}

/// How many bytes of a packet are made at a time.
const PIECE: usize = 64;

/// The first byte of each blob.
pub const FIRST_BYTE: u64 = 49;

/// Appends so many bytes: from this number up, modulo 256.
#[tactic(auto, using(crate::proofs::Bursts::burst_joined, crate::proofs::Bursts::burst_length))]
fn push_burst(buffer: &mut Buffer, len: u64, first: u64)
    requires empty { buffer.old.picture.payload ≡ [] }
    requires room { len ≤ MAX_PAYLOAD }
    requires first { first + len < 2 ^ 64 }
    ensures { buffer.new ≡ with_picture buffer.old (record buffer.old.picture { payload = burst_bytes len first }) }
{
    let mut done = 0;
    while done < len {
        let count = (PIECE as u64).min(len - done);
        buffer.push_tail(&piece_from(first + done, count)).unwrap();
        done += count;
    }
}

/// How many pieces of this size a blob of this length makes.
fn pieces_of(len: u32, size: u16) -> u32
    requires { 1 ≤ size }
    ensures { result ≡ piece_count len size }
{
    ((u64::from(len) + u64::from(size) - 1) / u64::from(size)) as u32
}

/// Appends the piece of this number, from 0, of a blob of this length: bytes of the blob, and the trailer.
#[tactic(auto, using(crate::proofs::Blobs::piece_is, crate::proofs::Bursts::burst_length))]
fn push_piece(buffer: &mut Buffer, len: u32, size: u16, number: u32)
    requires empty { buffer.old.picture.payload ≡ [] }
    requires size { size ≤ MAX_SIZE }
    ensures { buffer.new ≡ with_picture buffer.old (record buffer.old.picture { payload = blob_piece len size number }) }
{
    let start = u64::from(number) * u64::from(size);
    let count = u64::from(len).saturating_sub(start).min(u64::from(size));
    push_burst(buffer, count, FIRST_BYTE + start);
    let offset = number.wrapping_mul(u32::from(size));
    push_trailer(buffer, offset, len);
}

/// Appends the trailer of a piece.
fn push_trailer(buffer: &mut Buffer, offset: u32, total: u32)
    requires room { length buffer.old.picture.payload + TRAILER_LEN ≤ MAX_PAYLOAD }
    ensures { buffer.new ≡ with_picture buffer.old (record buffer.old.picture { payload = buffer.old.picture.payload ++ trailer_bytes offset total }) }
{
    buffer.push_tail(&trailer_bytes(offset, total)).unwrap();
}

/// So many bytes: from this number up, modulo 256.
#[tactic(auto, using(crate::proofs::Bursts::burst_more, crate::proofs::Bursts::burst_length))]
fn piece_from(first: u64, count: u64) -> ArrayVec<u8, PIECE>
    requires count { count ≤ PIECE }
    requires first { first + count < 2 ^ 64 }
    ensures { result.items ≡ burst_bytes count first }
{
    let mut bytes = ArrayVec::new();
    for i in 0..count {
        bytes.push(((first + i) % 256) as u8);
    }
    bytes
}
