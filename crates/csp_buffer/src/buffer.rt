//! The buffer itself.

ghost use Rattle.std.specs.Prelude.{◌≡◌, ◌+◌, ◌-◌, ◌<◌, ◌≤◌, ◌↔◌, ◌++◌, length, take, IsErr, OnOk, OnErr};
ghost use Rattle.csp_buffer.specs.PlainBuffer.{IsBufferCell, buffer_of, emptied, with_picture};
ghost use Rattle.csp_buffer.specs.Trails.{trace_of};
ghost use Rattle.csp_buffer.specs.Words.{overwritten};

use crate::trail::Trail;
use crate::{Full, Short, Shown};
use csp_arena::Cell;
use csp_base::{MAX_PAYLOAD, Trace};
use std::marker::Model;

/// How many bytes the header word has, which stands before the payload.
const HEADER_SIZE: usize = 4;

/// How many bytes the cell of a buffer has: a header word and a payload.
pub const CELL_SIZE: u16 = (MAX_PAYLOAD + HEADER_SIZE) as u16;

/// A packet buffer of a node: the header word, a payload of at most `MAX_PAYLOAD` bytes, and the trace.
///
/// Header and payload lie in a cell of the node's region of memory. A buffer is neither copied nor dropped:
/// who has it hands it on, or turns it into its cell. Its number, which is its cell's and names it in its node,
/// never changes, nor does its region. Contracts see it as a `PlainBuffer`.
pub struct Buffer {
    cell: Cell,
    length: usize,
    trail: Trail,
}

impl Model for Buffer {
    ghost use Rattle.std.specs.Prelude.{◌≤◌};
    ghost use Rattle.csp_buffer.specs.PlainBuffer.{PlainBuffer};

    ghost Value = { PlainBuffer };

    ghost use Rattle.csp_base.specs.declared.limits.TheConstants.{MAX_PAYLOAD};
    ghost use Rattle.csp_buffer.specs.PlainBuffer.{IsBufferCell};
    ghost use Rattle.csp_buffer.specs.Trails.{trace_of};
    ghost use Rattle.csp_buffer.specs.Words.{kept_in};

    ghost view = { λ b. kept_in b.cell b.length (trace_of b.trail) };

    ghost invariant = { λ b. IsBufferCell b.cell × (b.length ≤ MAX_PAYLOAD) };
}

impl Buffer {
    /// The cleared buffer that this cell makes, with its number.
    pub fn of(cell: Cell) -> Buffer
        requires { IsBufferCell cell }
        ensures { result ≡ buffer_of cell }
    {
        let mut buffer = Buffer {
            cell,
            length: 0,
            trail: Trail::of(Trace::empty()),
        };
        buffer.clear();
        buffer
    }

    /// Spends the buffer: its cell remains.
    pub fn into_cell(self) -> Cell
        ensures number { result.number ≡ self.picture.number }
        ensures region { result.region ≡ self.region }
        ensures fit { IsBufferCell result }
    {
        let Buffer {
            cell,
            length: _,
            trail: _,
        } = self;
        cell
    }

    /// Its number, which it has for life.
    pub fn number(&self) -> u16
        ensures { result ≡ self.now.picture.number }
    {
        self.cell.number()
    }

    /// Its header word.
    pub fn header(&self) -> u32
        ensures { result ≡ self.now.picture.header }
    {
        let bytes = self.cell.bytes();
        u32::from_be_bytes([bytes[0], bytes[1], bytes[2], bytes[3]])
    }

    /// Writes the header word, and nothing else.
    pub fn set_header(&mut self, word: u32)
        ensures { self.new ≡ with_picture self.old (record self.old.picture { header = word }) }
    {
        overwrite(self.cell.bytes_mut(), 0, &word.to_be_bytes());
    }

    /// Its payload, of at most `MAX_PAYLOAD` bytes.
    pub fn payload(&self) -> &[u8]
        ensures value { result.now ≡ self.now.picture.payload }
        ensures fits { length self.now.picture.payload ≤ MAX_PAYLOAD }
    {
        &self.cell.bytes()[HEADER_SIZE..HEADER_SIZE + self.length]
    }

    /// Where its packet comes from, for the record alone.
    pub fn trace(&self) -> Trace
        ensures { result ≡ self.now.picture.trace }
    {
        self.trail.trace()
    }

    /// The same, in few bytes.
    pub fn trail(&self) -> Trail
        ensures { trace_of result ≡ self.now.picture.trace }
    {
        self.trail
    }

    /// Writes the trace, and nothing else.
    pub fn set_trace(&mut self, trace: Trace)
        ensures { self.new ≡ with_picture self.old (record self.old.picture { trace = trace }) }
    {
        self.trail = Trail::of(trace);
    }

    /// Header 0, an empty payload and an empty trace.
    pub fn clear(&mut self)
        ensures { self.new ≡ emptied self.old }
    {
        self.set_header(0);
        self.length = 0;
        self.trail = Trail::of(Trace::empty());
    }

    /// Appends `bytes` to the payload, or nothing where the room left is less than their number.
    pub fn push_tail(&mut self, bytes: &[u8]) -> Result<(), Full>
        ensures full { IsErr result ↔ (MAX_PAYLOAD - length self.old.picture.payload < length bytes.now) }
        ensures ok { OnOk result (self.new ≡ with_picture self.old (record self.old.picture { payload = self.old.picture.payload ++ bytes.now })) }
        ensures err { OnErr result (self.new ≡ self.old) }
        ensures fits { length self.new.picture.payload ≤ MAX_PAYLOAD }
    {
        if MAX_PAYLOAD - self.length < bytes.len() {
            return Err(Full);
        }
        overwrite(self.cell.bytes_mut(), HEADER_SIZE + self.length, bytes);
        self.length += bytes.len();
        Ok(())
    }

    /// Cuts the last `n` bytes off the payload, or nothing where it has fewer.
    pub fn cut_tail(&mut self, n: usize) -> Result<(), Short>
        ensures short { IsErr result ↔ (length self.old.picture.payload < n) }
        ensures ok { OnOk result (self.new ≡ with_picture self.old (record self.old.picture { payload = take (length self.old.picture.payload - n) self.old.picture.payload })) }
        ensures err { OnErr result (self.new ≡ self.old) }
        ensures fits { length self.new.picture.payload ≤ MAX_PAYLOAD }
    {
        if self.length < n {
            return Err(Short);
        }
        self.length -= n;
        Ok(())
    }

    /// A picture of it as it stands, for a log.
    pub fn show(&self) -> Shown
        ensures { result ≡ self.now.picture }
    {
        Shown::of(self.number(), self.header(), self.payload(), self.trace())
    }
}

/// Writes `with` over as many of the bytes, from the place `at` on.
fn overwrite(bytes: &mut [u8], at: usize, with: &[u8])
    requires { at + length with.now ≤ length bytes.old }
    ensures { bytes.new ≡ overwritten bytes.old at with.now }
{
    bytes[at..at + with.len()].copy_from_slice(with);
}
