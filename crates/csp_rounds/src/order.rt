//! A gate that says which of two workers goes first.

use crate::Gate;
use std::sync::atomic::{AtomicBool, AtomicU64, Ordering};
use std::{hint, thread};

/// So often the second worker asks in a round, at most.
const POLLS: u32 = 100_000_000;

/// Each time that it has asked so often, it lets other threads run.
const POLLS_IN_A_ROW: u32 = 1000;

/// A gate for two workers, of which this one goes first: in each round the other waits until the first has done its
/// part.
///
/// It gives up once it has asked `POLLS` times in a round, and holds nobody up any more. So each call returns, and a
/// test that uses it asks at the end whether it gave up.
#[derive(Drop)]
pub struct OrderGate {
    first: u32,
    rounds: AtomicU64,
    passed: AtomicU64,
    gave_up: AtomicBool,
}

impl OrderGate {
    /// The gate at which the worker of this number goes first, 0 or 1, before any round.
    pub fn new(first: u32) -> OrderGate {
        OrderGate {
            first,
            rounds: AtomicU64::new(0),
            passed: AtomicU64::new(0),
            gave_up: AtomicBool::new(false),
        }
    }

    /// Whether a worker asked so often in vain that it went on.
    pub fn gave_up(&self) -> bool {
        self.gave_up.load(Ordering::SeqCst)
    }
}

impl Gate for OrderGate {
    fn pass(&self, worker: u32) {
        if worker == self.first || self.gave_up() {
            return;
        }
        let before = self.passed.fetch_add(1, Ordering::SeqCst);
        for poll in 0..POLLS {
            if self.rounds.load(Ordering::SeqCst) > before {
                return;
            }
            pause(poll);
        }
        self.gave_up.store(true, Ordering::SeqCst);
    }

    fn done(&self, worker: u32) {
        if worker == self.first {
            self.rounds.fetch_add(1, Ordering::SeqCst);
        }
    }
}

/// What a worker does after it has asked in vain, for the time of this number.
fn pause(poll: u32) {
    if poll % POLLS_IN_A_ROW == 0 {
        thread::yield_now();
    } else {
        hint::spin_loop();
    }
}
