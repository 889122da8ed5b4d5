//! The memory of a node's buffers.

ghost use Rattle.std.specs.Prelude.{◌≡◌, ◌+◌, ◌<◌, ◌≤◌, [], All, length, map, reverse, IfOk, vec_len, vec_capacity};
ghost use Rattle.csp_arena.specs.Cells.{RegionName, AreOf, numbers};
ghost use Rattle.csp_buffer.specs.Memory.{fresh_all, AreAllOf, HaveEachOnce};
ghost use Rattle.csp_buffer.specs.PlainBuffer.{IsBufferCell, buffer_of};

use crate::{Buffer, CELL_SIZE};
use csp_arena::{Cell, Region, RegionToken};
use std::alloc::{AllocError, Global};
use std::marker::Model;

/// The region that the buffers of a node lie in, while they are out. It is closed with all of them.
/// Contracts see it as the region's name and the number of buffers.
pub struct Memory {
    region: Region,
    cells: Vec<Cell>,
}

impl Model for Memory {
    ghost use Rattle.std.specs.Prelude.{◌≡◌, [], vec_capacity};
    ghost use Rattle.csp_buffer.specs.Memory.{PlainMemory};

    ghost Value = { PlainMemory };

    ghost view = { λ m. record { region = m.region.name; count = m.region.cells } };

    ghost invariant = { λ m. (m.cells.items ≡ []) × (vec_capacity m.cells ≡ m.region.cells) };
}

impl Memory {
    /// So many cleared buffers of one region, numbered from 0 in their order, and their memory.
    ///
    /// # Errors
    /// Want of memory.
    pub fn open(alloc: Global, count: u16) -> Result<(Memory, Vec<Buffer>), AllocError>
        requires { 0 < count }
        ensures count { IfOk result (λ p. p.0.count ≡ count) }
        ensures buffers { IfOk result (λ p. p.1.items ≡ fresh_all p.0) }
        ensures room { IfOk result (λ p. vec_capacity p.1 ≡ count) }
    {
        let mut buffers = Vec::with_capacity(alloc, usize::from(count))?;
        match Region::open(alloc, count, CELL_SIZE) {
            Ok((region, mut cells)) => {
                cells.reverse();
                fill(&mut cells, &mut buffers);
                Ok((Memory { region, cells }, buffers))
            }
            Err(error) => {
                buffers.destroy_empty();
                Err(error)
            }
        }
    }

    /// The token of the region.
    pub fn token(&self) -> RegionToken
        ensures { result.name ≡ self.now.region }
    {
        RegionToken::of(&self.region)
    }

    /// Gives the memory back, with all its buffers in whatever order they come. It takes no memory.
    pub fn close(self, mut buffers: Vec<Buffer>)
        requires count { length buffers.items ≡ self.count }
        requires of_it { AreAllOf self.region buffers.items }
        requires each_once { HaveEachOnce self.count buffers.items }
    {
        let Memory { region, mut cells } = self;
        empty(&mut buffers, &mut cells);
        buffers.destroy_empty();
        region.close(cells);
    }
}

/// Makes buffers of cells, the last first.
fn fill(cells: &mut Vec<Cell>, buffers: &mut Vec<Buffer>)
    requires fit { All IsBufferCell cells.old.items }
    requires none { buffers.old.items ≡ [] }
    requires room { vec_len buffers.old + length cells.old.items ≤ vec_capacity buffers.old }
    ensures buffers { buffers.new.items ≡ map buffer_of (reverse cells.old.items) }
    ensures cells { cells.new.items ≡ [] }
    ensures buffers_capacity { vec_capacity buffers.new ≡ vec_capacity buffers.old }
    ensures capacity { vec_capacity cells.new ≡ vec_capacity cells.old }
{
    while let Some(cell) = cells.pop() {
        buffers.push_reserved(Buffer::of(cell));
    }
}

/// Turns buffers into their cells.
fn empty(buffers: &mut Vec<Buffer>, cells: &mut Vec<Cell>)
    requires none { cells.old.items ≡ [] }
    requires room { vec_len cells.old + length buffers.old.items ≤ vec_capacity cells.old }
    ensures numbers { numbers cells.new.items ≡ reverse (map (λ b. b.picture.number) buffers.old.items) }
    ensures of_it { (r : RegionName) → AreAllOf r buffers.old.items → AreOf r cells.new.items }
    ensures buffers { buffers.new.items ≡ [] }
{
    while let Some(buffer) = buffers.pop() {
        cells.push_reserved(buffer.into_cell());
    }
}
