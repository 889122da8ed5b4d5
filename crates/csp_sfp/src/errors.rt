//! Why a piece is refused.

use thiserror::Error;

/// Why a collector refuses a piece: the first that fits, in this order. The blob under way is dropped with the piece.
#[derive(Clone, Copy, Debug, Error)]
pub enum SfpError {
    /// It is shorter than a trailer.
    #[error("the piece is shorter than its trailer")]
    Short,
    /// It is a trailer alone.
    #[error("the piece has no data")]
    NoData,
    /// Its blob would be empty, or longer than `MAX_BLOB`.
    #[error("a blob of {total} bytes")]
    BadTotal { total: u32 },
    /// The blob under way has another length.
    #[error("a piece of a blob of {found} bytes in one of {kept}")]
    WrongTotal { kept: u32, found: u32 },
    /// Its data doesn't follow what was gathered.
    #[error("a piece at {found} where {expected} bytes were gathered")]
    WrongOffset { expected: u32, found: u32 },
    /// Its data goes past the end of its blob.
    #[error("a piece past the end of a blob of {total} bytes")]
    TooMuch { total: u32 },
}
