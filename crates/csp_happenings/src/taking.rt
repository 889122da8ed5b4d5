//! How many frames a link took from each of its ends.

ghost use Rattle.std.specs.Prelude.{◌≡◌, ◌==◌, ℕ, ◌+◌, ◌-◌, ◌^◌, ◌<◌, get_or};
ghost use Rattle.csp_happenings.specs.Happenings.{is_taken, taken};
ghost use Rattle.csp_happenings.specs.Remembering.{one_if};

use csp_log::{Framed, Log, QueueId};
use std::marker::Model;

/// How many numbers an end may have.
const END_NUMBERS: usize = 256;

/// How many frames a link or a hub took from each end, counted along its log. Contracts see the counts of ends in the order
/// of their numbers.
#[derive(Drop)]
pub struct FrameCounts {
    counts: [u64; END_NUMBERS],
}

impl Model for FrameCounts {
    ghost use Rattle.std.specs.Prelude.{ℕ, List};

    ghost Value = { List ℕ };

    ghost view = { λ c. c.counts };
}

impl FrameCounts {
    /// None was taken.
    pub fn none() -> FrameCounts
        ensures { (end : ℕ) → get_or result end 0 ≡ 0 }
    {
        FrameCounts {
            counts: [0; END_NUMBERS],
        }
    }

    /// How many were taken in the turns of this log.
    pub fn along(log: &Log) -> FrameCounts
        ensures { (end : ℕ) → get_or result end 0 ≡ taken end log.now.entries }
    {
        let mut counts = FrameCounts::none();
        for index in 0..log.len() {
            counts.note(log.framed(index));
        }
        counts
    }

    /// How many were taken from this end.
    pub fn taken_from(&self, end: u8) -> u64
        ensures { result ≡ get_or self.now end 0 }
    {
        self.counts[usize::from(end)]
    }

    /// One frame more from this end: its number.
    pub(crate) fn count(&mut self, end: u8) -> u64
        requires { get_or self.old end 0 < 2 ^ 64 - 1 }
        ensures number { result ≡ get_or self.old end 0 + 1 }
        ensures taken { (k : ℕ) → get_or self.new k 0 ≡ get_or self.old k 0 + one_if (end == k) }
    {
        self.counts[usize::from(end)] += 1;
        self.counts[usize::from(end)]
    }

    /// Counts the frame that a turn took, if it took one.
    fn note(&mut self, framed: Framed)
        requires { (end : ℕ) → get_or self.old end 0 < 2 ^ 64 - 1 }
        ensures { (end : ℕ) → get_or self.new end 0 ≡ get_or self.old end 0 + one_if (is_taken end framed) }
    {
        if let Framed::Popped(QueueId::Tx(end), _) = framed {
            let _number = self.count(end);
        }
    }
}
