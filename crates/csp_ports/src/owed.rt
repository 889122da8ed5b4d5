//! An answer that an application is owed.

use csp_deck::Note;

/// An answer that the router still has to push to an application.
#[derive(Clone, Copy)]
pub struct Owed {
    /// The application's number.
    pub app: u8,
    /// The answer.
    pub note: Note,
}
