//! A blob cut into pieces, one at a time.

ghost use Rattle.std.specs.Prelude.{◌≡◌, ◌<◌, ◌≤◌, length, map};
ghost use Rattle.csp_sfp.specs.Pieces.{CanBeCut, held, piece_at, pieces_of};

use crate::trailer::{TRAILER_LEN, trailer_bytes};
use arrayvec::ArrayVec;
use std::marker::Model;

/// The most bytes of a blob that a piece carries.
pub const MAX_SIZE: u16 = 2_025;

/// The longest piece: its data and its trailer.
pub const MAX_PIECE: usize = MAX_SIZE as usize + TRAILER_LEN;

/// The pieces of a blob that are still to come. Contracts see them as the list of their bytes.
#[derive(Drop)]
pub struct Pieces<'a> {
    blob: &'a [u8],
    /// How many bytes of the blob each carries, but for the last.
    size: usize,
    /// The number of the next, from 0.
    next: usize,
    /// How many are still to come.
    left: usize,
}

impl<'a> Model for Pieces<'a> {
    ghost use Rattle.std.specs.Prelude.{ℕ, List};

    ghost Value = { List (List ℕ) };

    ghost use Rattle.csp_sfp.specs.Pieces.{IsUnderWay, pieces_left};

    ghost view = { pieces_left };

    ghost invariant = { IsUnderWay };
}

impl<'a> Pieces<'a> {
    /// The pieces of a blob of 1 to `MAX_BLOB` bytes. Each carries `size` bytes of it, 1 to `MAX_SIZE`, but for the
    /// last, which carries what is left; each has its trailer behind.
    pub fn new(blob: &'a [u8], size: u16) -> Pieces<'a>
        requires { CanBeCut blob.now size }
        ensures { result ≡ pieces_of blob.now size }
    {
        let size = usize::from(size);
        Pieces {
            blob,
            size,
            next: 0,
            left: (blob.len() + size - 1) / size,
        }
    }
}

impl<'a> Iterator for Pieces<'a> {
    ghost use Rattle.std.specs.Iterator.{YieldsFirst, item_count};

    type Item = ArrayVec<u8, MAX_PIECE>;

    ghost next_gives = { YieldsFirst (λ pieces. map held pieces) };

    ghost remaining = { item_count (λ pieces. pieces) };

    fn next(&mut self) -> Option<ArrayVec<u8, MAX_PIECE>> {
        if self.left == 0 {
            return None;
        }
        let offset = self.next * self.size;
        self.next += 1;
        self.left -= 1;
        Some(piece(self.blob, self.size, offset))
    }
}

/// The piece of a blob at an offset.
fn piece(blob: &[u8], size: usize, offset: usize) -> ArrayVec<u8, MAX_PIECE>
    requires cut { CanBeCut blob.now size }
    requires inside { offset < length blob.now }
    ensures { result ≡ held (piece_at blob.now size offset) }
{
    let rest = &blob[offset..];
    let mut bytes = ArrayVec::new();
    bytes
        .try_extend_from_slice(&rest[..rest.len().min(size)])
        .unwrap();
    bytes
        .try_extend_from_slice(&trailer_bytes(offset as u32, blob.len() as u32))
        .unwrap();
    bytes
}
