//! The machine of a reliable connection: `machine client START OPTIONS; STEP; ..`, or `machine server START PEER
//! OPTIONS; STEP; ..` where the peer's opening packet had the number `PEER`. The options are six numbers. A step is
//! `@TIME`, `job` (what is owed first, and the packet that is made for it), `hand FLAGS NUMBER ACKNOWLEDGED BYTES` (a
//! packet comes), `deliver`, `tick` (the timer is looked at), `close` or `state`.

use super::rdp::{head, options};
use crate::supply::{Supply, leave};
use csp_base::Seq;
use csp_cases::{Case, Steps, stepped};
use csp_rdp::{Job, Rdp, State};
use csp_rdp_header::{RdpHead, SYN};
use std::mem::ManuallyDrop;

/// A machine, the buffers that it is handed, and a time.
#[derive(Drop)]
struct Bench {
    machine: ManuallyDrop<Rdp>,
    supply: Supply,
    time: u64,
}

/// Tells what comes of each step.
pub(super) fn answer(case: &mut Case) {
    let (first, rest) = case.halves(case.rest(), ";");
    case.turn_to(first);
    match opened(case) {
        None => case.misread(),
        Some(machine) => {
            let supply = Supply::new(case.alloc());
            let machine = unsafe { ManuallyDrop::new_unchecked(machine) };
            case.turn_to(rest);
            let time = 0;
            stepped(
                case,
                &mut Bench {
                    machine,
                    supply,
                    time,
                },
            );
        }
    }
}

/// A machine that asks for a connection, or one that is asked for one.
fn opened(case: &mut Case) -> Option<Rdp> {
    let is_client = case.passes("client");
    if !is_client && !case.passes("server") {
        return None;
    }
    let start = Seq(case.short());
    let peer = if is_client { 0 } else { case.short() };
    let options = options(case);
    if options.window == 0 || options.window > 20 {
        return None;
    }
    if is_client {
        return Some(Rdp::connect(start, options, 0, 0, 0));
    }
    let syn = RdpHead {
        flags: SYN,
        seq: Seq(peer),
        ack: Seq(0),
    };
    Some(Rdp::accept(start, options, syn, None, 1, 0, 0))
}

impl Steps for Bench {
    fn step(&mut self, case: &mut Case) {
        let (machine, time) = (&mut self.machine, self.time);
        match case.word() {
            "job" => made(case, machine, &mut self.supply, time),
            "hand" => handed(case, machine, &mut self.supply, time),
            "deliver" => delivered(case, machine, time),
            "tick" => case.tell_shown(&machine.tick(time)),
            "close" => case.tell_shown(&machine.close(time)),
            "state" => case.tell_shown(&machine.state()),
            other => match other.strip_prefix("@") {
                Some(later) => self.time = case.long_of(later),
                None => case.misread(),
            },
        }
    }
}

/// Tells the job that is owed first, and the packet that is made for it.
fn made(case: &mut Case, machine: &mut Rdp, supply: &mut Supply, time: u64) {
    match machine.job(time) {
        None => case.tell("no job"),
        Some(Job::Deliver) => case.tell("Deliver"),
        Some(job) => filled(case, machine, supply, job, time),
    }
}

/// Tells the packet that is made for a job.
fn filled(case: &mut Case, machine: &mut Rdp, supply: &mut Supply, job: Job, time: u64) {
    let Some(mut packet) = supply.take() else {
        return case.lacks_memory();
    };
    if machine.job(time) == Some(job) && job != Job::Deliver {
        machine.fill(job, &mut packet, time);
    }
    write!(case, "{job:?} ");
    case.tell_bytes(packet.payload());
    leave(packet);
}

/// Tells what comes of a packet: what changed, and whether it was stray.
fn handed(case: &mut Case, machine: &mut Rdp, supply: &mut Supply, time: u64) {
    let head = head(case);
    let bytes = case.bytes();
    let Some(mut packet) = supply.take() else {
        return case.lacks_memory();
    };
    let _room = packet.push_tail(bytes.as_slice());
    let outcome = machine.handed(head, None, packet, time);
    case.tell_shown(&outcome.change);
    case.tell(if outcome.stray { " stray" } else { "" });
    leave(outcome);
}

/// Tells the payload of the packet that is delivered next.
fn delivered(case: &mut Case, machine: &mut Rdp, time: u64) {
    let Some(packet) = machine.deliver() else {
        return case.tell("nothing");
    };
    case.tell_bytes(packet.payload());
    leave(packet);
    if machine.state() != State::Open || machine.cur() > 1_000 {
        return case.misread();
    }
    let change = machine.delivered(time);
    write!(case, " {change:?}");
}
