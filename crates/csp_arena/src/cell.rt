//! A cell of a region.

ghost use Rattle.std.specs.Prelude.{◌≡◌, ◌≢◌, ◌<◌, length};
ghost use Rattle.std.specs.Borrow.{Lends, Array, sem, u8};
ghost use Rattle.csp_arena.specs.Places.{IsCellAt, name_at, place_of, with_bytes};
ghost use Rattle.csp_arena.specs.contracts.cell.Cell.{the_row};

use crate::strip::{Strip, differ, dislodge_strip, lodge_strip};
use std::marker::Model;
use std_alloc::vec::Lodged;

/// A cell of a region: bytes that nothing else reaches, and the number by which the region knows it.
///
/// It is neither copied nor dropped, and is spent by `Region::close` alone. Contracts see it as a `PlainCell`.
pub struct Cell {
    bytes: Vec<u8, Lodged>,
    number: u16,
}

impl Model for Cell {
    ghost use Rattle.std.specs.Prelude.{◌<◌};
    ghost use Rattle.csp_arena.specs.Cells.{PlainCell};

    ghost Value = { PlainCell };

    ghost use Rattle.csp_arena.specs.Places.{name_at, IsCellAt};

    ghost view = { λ c. record { region = name_at c.bytes.ptr c.number c.bytes.len; number = c.number; bytes = c.bytes.items } };

    ghost invariant = { λ c. (0 < c.bytes.len) × IsCellAt c.bytes.ptr c.number c.bytes.len };
}

impl Cell {
    /// Its number, which it has for life.
    pub fn number(&self) -> u16
        ensures { result ≡ self.now.number }
    {
        self.number
    }

    /// Its bytes.
    pub fn bytes(&self) -> &[u8]
        ensures value { result.now ≡ self.now.bytes }
        ensures size { length self.now.bytes ≡ self.now.region.size }
    {
        self.bytes.as_slice()
    }

    /// Its bytes, to be written. Whatever is written there, number and region stay, and so does the count of bytes.
    pub fn bytes_mut(&mut self) -> &mut [u8]
        ensures* writes_back { sem 𝓛
            (Lends the_row (Array u8 0) self.entry result (with_bytes self.old)) }
        ensures value { result.now ≡ self.old.bytes }
        ensures size { length self.old.bytes ≡ self.old.region.size }
    {
        self.bytes.as_mut_slice()
    }

    /// The cell of this number, over the strip at `ptr`.
    pub(crate) fn lodge(ptr: *mut u8, strip: Strip, number: u16, size: u16) -> Cell
        requires strip { (strip.ptr ≡ ptr) × (length strip.items ≡ size) × (0 < size) }
        requires placed { IsCellAt ptr number size }
        ensures { result ≡ record { region = name_at ptr number size; number = number; bytes = strip.items } }
    {
        Cell {
            bytes: lodge_strip(ptr, usize::from(size), strip),
            number,
        }
    }

    /// Its strip. The cell is spent.
    pub(crate) fn dislodge(self) -> Strip
        ensures place { result.ptr ≡ place_of self.region self.number }
        ensures items { result.items ≡ self.bytes }
        ensures size { length self.bytes ≡ self.region.size }
    {
        let Cell { bytes, number: _ } = self;
        dislodge_strip(bytes)
    }
}

/// Two cells of one region differ in number. Both stay as they are.
pub fn apart(a: &mut Cell, b: &mut Cell)
    requires same_region { a.old.region ≡ b.old.region }
    ensures apart { a.old.number ≢ b.old.number }
    ensures kept { (a.new ≡ a.old) × (b.new ≡ b.old) }
{
    differ(&mut a.bytes, &mut b.bytes)
}
