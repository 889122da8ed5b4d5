//! What a turn of a bridge is.

/// What a turn is, from its operation to the answer.
#[derive(Clone, Copy)]
pub enum Doing {
    /// Between two turns.
    Rest,
    /// The buffer of a packet that was discarded is given back.
    Give,
    /// A packet goes out.
    Send,
    /// A packet is looked for.
    Hear,
}
