//! What makes rounds.

ghost use Rattle.std.specs.Prelude.{ℕ};

use std::sync::Wait;

/// What makes rounds, beside others that share an object with it and make theirs at the same time.
pub trait Worker: Send {
    /// What the workers share.
    type Shared: Sync;

    /// It can make a round over what they share, at this time.
    ghost is_ready: { Self → Self.Shared → ℕ → Type 0 };

    /// What one round over what they share, at this time, may leave of it.
    ghost does: { Self → Self.Shared → ℕ → Self → Type 0 };

    /// One round.
    fn round<R: Wait>(&mut self, rt: &R, shared: &Self::Shared, now: u64)
        requires ready { is_ready self.old shared.now now }
        ensures done { does self.old shared.now now self.new };
}
