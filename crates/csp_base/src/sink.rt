//! Where bytes go, and the loop that writes them all.

ghost use Rattle.std.specs.Prelude.{◌≡◌, ℕ, ◌<◌, ◌≤◌, List, length, IfOk, OnOk, OnErr, IsErr, Option};
ghost use Rattle.std.specs.Io.KnownBytes.{WriteAppends, Appends};
ghost use Rattle.csp_base.specs.Faults.{HasCause, Rose};
ghost use Rattle.csp_base.specs.Transfer.{WrotePrefix};

use super::source::Failed;

/// A stream of bytes that is written once, at the end.
pub trait Sink {
    // the bytes written so far, where they are known
    ghost written: { Self → Option (List ℕ) };
    // the faults counted so far
    ghost faults: { Self → ℕ };

    /// Takes some bytes from the front of `buf`, at least one, and answers how many.
    fn write(&mut self, buf: &[u8]) -> Result<usize, Failed>
        requires { 0 < length buf.now }
        ensures some { IfOk result (λ n. 0 < n) }
        ensures bound { IfOk result (λ n. n ≤ length buf.now) }
        ensures bytes { WriteAppends (written self.old) (written self.new) result buf.now }
        ensures cause { HasCause (faults self.old) (faults self.new) result };
}

/// Writes all of `bytes`. A refusal comes only from the sink, and what was written then is a prefix.
pub fn write_whole<K: Sink>(sink: &mut K, bytes: &[u8]) -> Result<(), Failed>
    ensures whole { OnOk result (Appends (K.written sink.old) (K.written sink.new) bytes.now) }
    ensures part { OnErr result (WrotePrefix (K.written sink.old) (K.written sink.new) bytes.now) }
    ensures fault { IsErr result → Rose (K.faults sink.old) (K.faults sink.new) }
    ensures steady { OnOk result (K.faults sink.new ≡ K.faults sink.old) }
{
    let mut rest = bytes;
    while !rest.is_empty() {
        let count = sink.write(rest)?;
        rest = &rest[count..];
    }
    Ok(())
}
