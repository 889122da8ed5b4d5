//! A region of cells.

ghost use Rattle.std.specs.Prelude.{◌≡◌, ◌+◌, ◌*◌, ◌<◌, ◌≤◌, [], ◌∷◌, length, map, take, drop, replicate, IfOk, vec_len, vec_capacity};
ghost use Rattle.std.specs.List.{range_with_len};
ghost use denote.RawPtr.{◌+ₚ◌};
ghost use Rattle.bytes.specs.Ownership.{IsPlaced};
ghost use Rattle.csp_arena.specs.Cells.{AreOf, HasEachOnce, blank, blank_cells, numbers};
ghost use Rattle.csp_arena.specs.Places.{name_at};

use crate::cell::Cell;
use crate::strip::{Shell, Strip, cut, join, put_back, take_out};
use std::alloc::{AllocError, Global};
use std::marker::Model;

/// The memory of all cells of a node. It must be closed, with all its cells.
///
/// Contracts see it as a `PlainRegion`.
pub struct Region {
    shell: Shell,
    // What is left of the memory after the last cell: nothing, but its place.
    rest: Strip,
    cells: u16,
    size: u16,
}

impl Model for Region {
    ghost use Rattle.std.specs.Prelude.{◌≡◌, ◌*◌, ◌<◌, List, []};
    ghost use denote.RawPtr.{◌+ₚ◌};
    ghost use Rattle.bytes.specs.Ownership.{IsPlaced};
    ghost use Rattle.csp_arena.specs.Cells.{PlainRegion};

    ghost Value = { PlainRegion };

    ghost use Rattle.csp_arena.specs.Places.{name_at};

    ghost view = { λ r. record { name = name_at r.shell.ptr 0 r.size; cells = r.cells; size = r.size } };

    ghost invariant = { λ r. (0 < r.cells) × (0 < r.size) × IsPlaced r.shell.ptr × (r.shell.len ≡ r.cells * r.size)
        × (r.rest.ptr ≡ r.shell.ptr +ₚ r.cells * r.size) × (r.rest.items ≡ []) };
}

impl Region {
    /// A region of `cells` cells of `size` bytes, and its cells, numbered from 0 in their order, with zero in
    /// every byte. The bytes are one allocation, the list another; it fails for want of memory alone.
    pub fn open(alloc: Global, cells: u16, size: u16) -> Result<(Region, Vec<Cell>), AllocError>
        requires some { (0 < cells) × (0 < size) }
        ensures region { IfOk result (λ p. (p.0.cells ≡ cells) × (p.0.size ≡ size) × (p.0.name.size ≡ size)) }
        ensures cells { IfOk result (λ p. p.1.items ≡ blank_cells p.0) }
        ensures room { IfOk result (λ p. vec_capacity p.1 ≡ cells) }
    {
        let count = usize::from(cells);
        let mut memory = Vec::from_elem(alloc, 0u8, count * usize::from(size))?;
        let mut list = Vec::with_capacity(alloc, count)?;
        let start = memory.as_mut_ptr();
        let (strip, shell) = take_out(memory);
        let rest = divide(start, strip, cells, size, &mut list);
        let region = Region {
            shell,
            rest,
            cells,
            size,
        };
        Ok((region, list))
    }

    /// Gives the memory of the region back, with all its cells, in whatever order they come.
    pub fn close(self, mut cells: Vec<Cell>)
        requires of_it { AreOf self.name cells.items }
        requires each_once { HasEachOnce self.cells (numbers cells.items) }
    {
        cells.sort_unstable_by_key(Cell::number);
        drop(self.reclaim(cells));
    }

    /// The memory, with all cells, which stand in order of their numbers.
    fn reclaim(self, cells: Vec<Cell>) -> Vec<u8>
        requires of_it { AreOf self.name cells.items }
        requires in_order { numbers cells.items ≡ range_with_len 0 self.cells }
    {
        let Region {
            shell,
            rest,
            cells: _,
            size: _,
        } = self;
        let mut cells = cells;
        let mut strip = rest;
        while let Some(cell) = cells.pop() {
            strip = join(cell.dislodge(), strip);
        }
        cells.destroy_empty();
        put_back(strip, shell)
    }
}

/// Appends blank cells of `size` bytes to the list, which lie one after another from `start` on, and gives what
/// is left of the strip.
fn divide(start: *mut u8, strip: Strip, cells: u16, size: u16, list: &mut Vec<Cell>) -> Strip
    requires strip { (strip.ptr ≡ start) × IsPlaced start × (strip.items ≡ replicate (cells * size) 0) }
    requires some { 0 < size }
    requires room { (list.old.items ≡ []) × (cells ≤ vec_capacity list.old) }
    ensures cells { list.new.items ≡ map (blank (name_at start 0 size)) (range_with_len 0 cells) }
    ensures capacity { vec_capacity list.new ≡ vec_capacity list.old }
    ensures rest { (result.ptr ≡ start +ₚ cells * size) × (result.items ≡ []) }
{
    let mut rest = strip;
    for number in 0..cells {
        let (cell, back) = first_cell(start, rest, number, size);
        list.push_reserved(cell);
        rest = back;
    }
    rest
}

/// The cell of this number, which lies first in the strip, and what is left of the strip.
fn first_cell(start: *mut u8, strip: Strip, number: u16, size: u16) -> (Cell, Strip)
    requires strip { (strip.ptr ≡ start +ₚ number * size) × IsPlaced start × (size ≤ length strip.items) }
    requires some { 0 < size }
    ensures cell { result.0 ≡ record { region = name_at start 0 size; number = number; bytes = take size strip.items } }
    ensures rest { (result.1.ptr ≡ start +ₚ (number + 1) * size) × (result.1.items ≡ drop size strip.items) }
{
    let (front, back) = cut(strip, usize::from(size));
    let ptr = unsafe { start.byte_add(usize::from(number) * usize::from(size)) };
    (Cell::lodge(ptr, front, number, size), back)
}
