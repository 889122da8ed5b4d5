//! What a turn of a hub is.

/// What a turn is, from its operation to the answer.
#[derive(Clone, Copy)]
pub enum Doing {
    /// Between two turns.
    Rest,
    /// The first frame that is held for the end and due goes on. It was held in this place, and due at this time.
    Push { place: usize, due: u64 },
    /// A frame is popped.
    Pop,
    /// Nothing.
    Wait,
}
