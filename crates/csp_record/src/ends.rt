//! How often each slot of an application was freed, counted along a log.

ghost use Rattle.std.specs.Prelude.{◌≡◌, ◌==◌, ℕ, ◌+◌, ◌-◌, ◌^◌, ◌<◌, false, get_or, if◌then◌else◌};
ghost use Rattle.std.specs.Option.{option_map_or};
ghost use Rattle.csp_base.specs.Seat.{seat};
ghost use Rattle.csp_record.specs.Ordinals.{frees};

use crate::payloads::Transfer;
use csp_log::{Note, Noted, QueueId};
use std::marker::Model;

/// How many numbers a slot may have.
const SLOT_NUMBERS: usize = 256;

/// The number of Closed answers so far for each slot, which is the ordinal of its present or next connection.
/// Contracts see the numbers of slots in their order.
#[derive(Drop)]
pub(crate) struct Ends {
    counts: [u64; SLOT_NUMBERS],
}

impl Model for Ends {
    ghost use Rattle.std.specs.Prelude.{ℕ, List};

    ghost Value = { List ℕ };

    ghost view = { λ e. e.counts };
}

impl Ends {
    /// No slot was freed.
    pub(crate) fn none() -> Ends
        ensures { (slot : ℕ) → get_or result slot 0 ≡ 0 }
    {
        Ends {
            counts: [0; SLOT_NUMBERS],
        }
    }

    /// How often this slot was freed.
    pub(crate) fn of(&self, slot: u8) -> u64
        ensures { result ≡ get_or self.now slot 0 }
    {
        self.counts[usize::from(slot)]
    }

    /// Counts the Closed answer to this application that was moved, if one was: pushed, in a router's log, or
    /// popped, in the application's own.
    pub(crate) fn note(&mut self, way: Transfer, app: usize, noted: Noted)
        requires { (slot : ℕ) → get_or self.old slot 0 < 2 ^ 64 - 1 }
        ensures { (slot : ℕ) → get_or self.new slot 0 ≡ (if frees way (seat app slot) noted then get_or self.old slot 0 + 1 else get_or self.old slot 0) }
    {
        if let Some(slot) = freed(way, app, noted) {
            self.counts[usize::from(slot)] += 1;
        }
    }
}

/// The slot of this application for which a Closed answer was moved.
fn freed(way: Transfer, app: usize, noted: Noted) -> Option<u8>
    ensures { (slot : ℕ) → option_map_or (λ freed. freed == slot) result false ≡ frees way (seat app slot) noted }
{
    match (way, noted) {
        (Transfer::Sent, Noted::Pushed(QueueId::Down(number), Note::Closed { slot }))
        | (Transfer::Took, Noted::Popped(QueueId::Down(number), Note::Closed { slot }))
            if usize::from(number) == app => { Some(slot) }
        _ => None,
    }
}
