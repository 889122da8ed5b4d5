//! What one turn of a party came to.

/// What one turn of a party came to.
#[derive(Clone, Copy)]
pub enum Turn {
    /// It did its one operation.
    Did,
    /// There was nothing to do, or the queue that it tried was empty or full.
    Idle,
    /// It had ended before this turn.
    Ended,
}
