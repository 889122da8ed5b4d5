//! A frame that a hub holds.

ghost use Rattle.std.specs.Prelude.{◌≡◌, nat_le};

use csp_log::BoxedFrame;
use std::marker::Model;

/// A frame that a hub holds for an end. Contracts see it as one that a link holds.
#[derive(Drop)]
pub struct Held {
    /// From when on it may go on.
    pub due: u64,
    /// The frame.
    pub frame: BoxedFrame,
}

impl Model for Held {
    ghost use Rattle.csp_link.specs.declared.held.Held.{Held as Known};

    ghost Value = { Known };

    ghost view = { λ h. record { due = h.due; frame = h.frame } };
}

impl Held {
    /// Whether it may go on at this time.
    pub fn is_due(&self, now: u64) -> bool
        ensures { result ≡ nat_le self.now.due now }
    {
        self.due <= now
    }
}
