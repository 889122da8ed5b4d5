//! The trailer of a piece.

ghost use Rattle.std.specs.Prelude.{◌≡◌, ◌≤◌, ℕ, List, ◌++◌, IfSome, IsSome, ◌↔◌, length};
ghost use Rattle.csp_sfp.specs.Trailer.{trailer_bytes, data_of, offset_of, total_of};

/// How many bytes a trailer has: the offset of the piece's data and the blob's length, each of 32 bits, the most
/// significant byte first.
pub const TRAILER_LEN: usize = 8;

/// The longest blob, in bytes.
pub const MAX_BLOB: usize = 65_536;

/// A piece, read: its data, and what its trailer says.
#[derive(Clone, Copy)]
pub(crate) struct Piece<'a> {
    pub data: &'a [u8],
    pub offset: u32,
    pub total: u32,
}

impl<'a> Piece<'a> {
    /// Reads a payload as a piece: its last eight bytes are the trailer. None where it is shorter.
    pub(crate) fn read(payload: &'a [u8]) -> Option<Piece<'a>>
        ensures long { IsSome result ↔ (TRAILER_LEN ≤ length payload.now) }
        ensures data { IfSome result (λ piece. piece.data.now ≡ data_of payload.now) }
        ensures offset { IfSome result (λ piece. piece.offset ≡ offset_of payload.now) }
        ensures total { IfSome result (λ piece. piece.total ≡ total_of payload.now) }
    {
        let (data, trailer) = payload.split_last_chunk::<8>()?;
        let &[o0, o1, o2, o3, t0, t1, t2, t3] = trailer;
        Some(Piece {
            data,
            offset: u32::from_be_bytes([o0, o1, o2, o3]),
            total: u32::from_be_bytes([t0, t1, t2, t3]),
        })
    }
}

/// The eight bytes of a trailer.
pub fn trailer_bytes(offset: u32, total: u32) -> [u8; 8]
    ensures { result ≡ trailer_bytes offset total }
{
    let [o0, o1, o2, o3] = offset.to_be_bytes();
    let [t0, t1, t2, t3] = total.to_be_bytes();
    [o0, o1, o2, o3, t0, t1, t2, t3]
}
