//! What is wrong with the text of a table.

use thiserror::Error;

/// What is wrong with a word of a row.
#[derive(Clone, Copy, Debug)]
pub enum RouteKind {
    /// A word out of the form of a row, or a word that is missing.
    Syntax,
    /// An address over 31, or a mask over 5.
    Range,
    /// A word in the place of an interface that names none.
    NoInterface,
    /// A row that the table has no room for.
    Full,
}

/// The first error of a text, and its place: the first byte of the word, or of the mask, which is all
/// after the word's first `/`; where a word is missing, the next comma or the text's end; for Full the row's address.
#[derive(Clone, Copy, Debug, Error)]
#[error("{kind:?} at byte {at}")]
pub struct RouteError {
    pub at: usize,
    pub kind: RouteKind,
}
