//! Why a scenario is refused.

use thiserror::Error;

/// What is wrong with a line. A line is refused with the first of these that fits, each tried
/// over the whole line.
#[derive(Clone, Copy, PartialEq, Eq, Debug)]
pub enum SceneKind {
    /// A byte outside 0x20 to 0x7E.
    Byte,
    /// More than `MAX_LINE` bytes.
    Long,
    /// A first word that begins no line form.
    Word,
    /// A step line that belongs to no application. Lines that are ignored don't part it from one.
    Place,
    /// A number of words that no choice of the line's fixed and optional words gives.
    Count,
    /// No such choice with this number of words has the line's fixed words in their places.
    Choice,
    /// A name out of its form.
    Name,
    /// A number or a hexadecimal text out of its form or range.
    Number,
    /// A name that no earlier line declares.
    Unknown,
    /// A name, an address or a line that an earlier line has already given.
    Twice,
    /// More of a thing than a scene may have.
    Full,
    /// A line that every scenario has is missing. Its number is that of the line after the last.
    Missing,
}

/// A scenario that is refused, or memory that ran out.
#[derive(Clone, Copy, Debug, Error)]
pub enum SceneError {
    /// The first refused line, counted from 1, and what is wrong with it.
    #[error("line {line}: {kind:?}")]
    Refused {
        /// The number of the line.
        line: u32,
        /// What is wrong with it.
        kind: SceneKind,
    },
    /// There was not enough memory to read the text.
    #[error("out of memory")]
    NoMemory,
}
