//! What may go wrong on a link.

/// The most copies that a fault adds to a frame.
pub const MAX_REPEATS: u8 = 7;

/// Something that happens to one frame on its way over a link.
#[derive(Clone, Copy, Debug)]
pub struct Fault {
    /// The direction: 0 from the first end to the second, 1 back.
    pub dir: u8,
    /// Which of the frames of that direction, counted from 1.
    pub frame: u64,
    /// What happens to it.
    pub kind: FaultKind,
}

/// What happens to a frame. Of faults of one kind for one frame the last counts.
#[derive(Clone, Copy, Debug)]
pub enum FaultKind {
    /// It is lost, whatever else the plan says of it.
    Lose,
    /// It arrives so many times more.
    Repeat(u8),
    /// It, and each copy of it, goes on so many rounds later.
    Delay(u32),
    /// This bit of it is changed, counted from 0, the top bit of the first byte. A frame that has no
    /// such bit stays as it is.
    Flip(u32),
}
