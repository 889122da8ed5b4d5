//! Rounds of workers, in both orders of two, and by fewer and more workers than there are posts.

ghost use Rattle.std.specs.Prelude.{◌≡◌, ◌≤◌, ⊤};

use csp_rounds::{Gate, OpenGate, OrderGate, Worker, rounds};
use std::sync::Wait;
use std::sync::atomic::{AtomicU64, Ordering};
use std::test::*;
use std::thread::Threads;

/// What makes rounds, and keeps the ticket that it drew in the last one, and at which time that was.
#[derive(Clone, Copy)]
struct Visitor {
    ticket: u64,
    time: u64,
}

/// A visitor that has made no round.
const NEW: Visitor = Visitor {
    ticket: u64::MAX,
    time: u64::MAX,
};

impl Worker for Visitor {
    type Shared = AtomicU64;

    ghost is_ready = { λ _ _ _. ⊤ };

    ghost does = { λ _ _ now after. after.time ≡ now };

    fn round<R: Wait>(&mut self, _rt: &R, tickets: &AtomicU64, now: u64) {
        self.ticket = tickets.fetch_add(1, Ordering::SeqCst);
        self.time = now;
    }
}

/// A gate that counts how often each worker passes it, up to 255 times each, and whether each was done as often.
#[derive(Drop)]
struct CountingGate {
    passed: AtomicU64,
    open: AtomicU64,
}

impl CountingGate {
    fn new() -> CountingGate {
        CountingGate {
            passed: AtomicU64::new(0),
            open: AtomicU64::new(0),
        }
    }

    /// How often the workers 0 to 3 passed, and how much they passed more than they were done.
    fn counts(&self) -> ([u8; 4], u64) {
        let passed = self.passed.load(Ordering::SeqCst).to_le_bytes();
        (
            [passed[0], passed[1], passed[2], passed[3]],
            self.open.load(Ordering::SeqCst),
        )
    }
}

impl Gate for CountingGate {
    fn pass(&self, worker: u32) {
        self.passed.fetch_add(place(worker), Ordering::SeqCst);
        self.open.fetch_add(place(worker), Ordering::SeqCst);
    }

    fn done(&self, worker: u32) {
        self.open.fetch_sub(place(worker), Ordering::SeqCst);
    }
}

/// One, in a worker's byte.
fn place(worker: u32) -> u64 {
    1 << (worker % 8 * 8)
}

/// What two rounds of two workers, each with one visitor, leave where this one goes first: the tickets of the last
/// round, and whether the gate gave up.
fn two_rounds<R: Threads + Wait + Sync>(rt: &R, first: u32) -> ([u64; 2], bool) {
    let gate = OrderGate::new(first);
    let tickets = AtomicU64::new(0);
    let mut visitors = [NEW; 2];
    rounds(rt, &tickets, &mut visitors, 2, &gate, 0);
    rounds(rt, &tickets, &mut visitors, 2, &gate, 1);
    ([visitors[0].ticket, visitors[1].ticket], gate.gave_up())
}

/// How often each of the workers passes the gate in a round of five visitors by so many workers, and whether each
/// visitor drew one of the tickets.
fn one_round<R: Threads + Wait + Sync>(rt: &R, workers: u32) -> ([u8; 4], u64, bool)
    requires { 1 ≤ workers }
{
    let gate = CountingGate::new();
    let tickets = AtomicU64::new(0);
    let mut visitors = [NEW; 5];
    rounds(rt, &tickets, &mut visitors, workers, &gate, 7);
    let (passed, open) = gate.counts();
    let drawn = tickets.load(Ordering::SeqCst) == 5
        && visitors
            .iter()
            .all(|visitor| visitor.ticket < 5 && visitor.time == 7);
    (passed, open, drawn)
}

#[test]
fn the_first_worker_goes_first_in_each_round(rt: HostRuntime) -> Result<(), Fail> {
    assert_eq!(rt; two_rounds(&rt, 1), ([3, 2], false));
    assert_eq!(rt; two_rounds(&rt, 0), ([2, 3], false));
    Ok(())
}

#[test]
fn each_worker_passes_the_gate_once_and_each_visitor_draws_once(
    rt: HostRuntime,
) -> Result<(), Fail> {
    assert_eq!(rt; one_round(&rt, 1), ([1, 0, 0, 0], 0, true));
    assert_eq!(rt; one_round(&rt, 2), ([1, 1, 0, 0], 0, true));
    assert_eq!(rt; one_round(&rt, 3), ([1, 1, 1, 0], 0, true));
    assert_eq!(rt; one_round(&rt, 4), ([1, 1, 1, 0], 0, true));
    assert_eq!(rt; one_round(&rt, 9), ([1, 1, 1, 1], 0, true));
    Ok(())
}

#[test]
fn an_open_gate_holds_nobody_up(rt: HostRuntime) -> Result<(), Fail> {
    let tickets = AtomicU64::new(0);
    let mut visitors = [NEW; 3];
    rounds(&rt, &tickets, &mut visitors, 2, &OpenGate, 1);
    let times = [visitors[0].time, visitors[1].time, visitors[2].time];
    assert_eq!(rt; (times, tickets.load(Ordering::SeqCst)), ([1; 3], 3));
    Ok(())
}
