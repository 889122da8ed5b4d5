//! Where bytes come from, and the loop that reads them all.

ghost use Rattle.std.specs.Prelude.{◌≡◌, ◌≢◌, ℕ, ◌+◌, ◌-◌, ◌<◌, ◌≤◌, ◌^◌, List, length, vec_len, IfOk, OnErr, Option, IsErrOf};
ghost use Rattle.std.specs.Io.KnownBytes.{ReadConsumes, Consumes, Keeps};
ghost use Rattle.csp_base.specs.Faults.{HasCause, Rose};
ghost use Rattle.csp_base.specs.Transfer.{TookAll, TookAtMost, TookExactly, Extends};

use std::alloc::Global;

/// What a source or a sink answers where it could not serve a call.
#[derive(Clone, Copy, Drop)]
pub struct Failed;

/// A stream of bytes that is read once, from the front.
pub trait Source {
    // the bytes still to come, where they are known
    ghost left: { Self → Option (List ℕ) };
    // the faults counted so far
    ghost faults: { Self → ℕ };

    /// Reads up to `buf.len()` bytes into the front of `buf`. `Ok(0)` is the end of input.
    fn read(&mut self, buf: &mut [u8]) -> Result<usize, Failed>
        requires { 0 < length buf.old }
        ensures bound { IfOk result (λ n. n ≤ length buf.new) }
        ensures bytes { ReadConsumes (left self.old) (left self.new) result buf.new }
        ensures cause { HasCause (faults self.old) (faults self.new) result };
}

/// Why a source was not read to its end.
#[derive(Clone, Copy, Drop)]
pub enum ReadError {
    /// Memory was wanting.
    NoMemory,
    /// The source counted a fault.
    Fault,
    /// The source gave more bytes than the limit.
    TooLong,
}

/// How many bytes one read asks for at most.
const CHUNK: usize = 4096;

/// Reads a source to its end, which is to come within `limit` bytes: the reading stops at the first fault, at
/// the end of input, or at byte `limit + 1`. Fault is answered exactly where the last read met one.
pub fn read_up_to<S: Source>(
    alloc: Global,
    source: &mut S,
    limit: usize,
) -> Result<Vec<u8>, ReadError>
    requires { limit < 2 ^ 63 }
    ensures all { IfOk result (λ bytes. TookAll (S.left source.old) (S.left source.new) bytes.items) }
    ensures short { IfOk result (λ bytes. vec_len bytes ≤ limit) }
    ensures stops { TookAtMost (S.left source.old) (S.left source.new) (limit + 1) }
    ensures fault { IsErrOf result ReadError.Fault → Rose (S.faults source.old) (S.faults source.new) }
    ensures steady { result ≢ Err ReadError.Fault → S.faults source.new ≡ S.faults source.old }
    ensures long { IsErrOf result ReadError.TooLong → TookExactly (S.left source.old) (S.left source.new) (limit + 1) }
{
    let mut taken = Vec::new(alloc);
    let mut chunk = [0u8; CHUNK];
    while taken.len() <= limit {
        if read_some(source, &mut taken, &mut chunk, limit + 1)? == 0 {
            return Ok(taken);
        }
    }
    Err(ReadError::TooLong)
}

/// One read, whose bytes are appended to `taken`, which ends with at most `most` bytes.
fn read_some<S: Source>(
    source: &mut S,
    taken: &mut Vec<u8>,
    chunk: &mut [u8],
    most: usize,
) -> Result<usize, ReadError>
    requires room { vec_len taken.old < most }
    requires chunk { 0 < length chunk.old }
    ensures read { IfOk result (λ n. Extends (S.left source.old) (S.left source.new) taken.old.items taken.new.items n) }
    ensures count { IfOk result (λ n. vec_len taken.new ≡ vec_len taken.old + n) }
    ensures bound { IfOk result (λ n. vec_len taken.new ≤ most) }
    ensures refused { OnErr result (TookAtMost (S.left source.old) (S.left source.new) (most - vec_len taken.old)) }
    ensures not_long { result ≢ Err ReadError.TooLong }
    ensures fault { IsErrOf result ReadError.Fault → Rose (S.faults source.old) (S.faults source.new) }
    ensures steady { result ≢ Err ReadError.Fault → S.faults source.new ≡ S.faults source.old }
{
    let wanted = chunk.len().min(most - taken.len());
    let Ok(count) = source.read(&mut chunk[..wanted]) else {
        return Err(ReadError::Fault);
    };
    let Ok(()) = taken.extend_from_slice(&chunk[..count]) else {
        return Err(ReadError::NoMemory);
    };
    Ok(count)
}
