//! The two windows of a reliable connection: `window send START WINDOW; STEP; ..` with the steps `admit`, `ack
//! NUMBER` and `drain`, and `window receive START WINDOW; STEP; ..` with the steps `offer NUMBER` and `next`. A
//! packet that is acknowledged is handed back by `drain`; while one waits, the next is not admitted.

use crate::supply::{Supply, leave};
use csp_base::Seq;
use csp_cases::{Case, Steps, stepped};
use csp_rdp_window::{Offer, RecvWindow, SendWindow};
use std::mem::ManuallyDrop;

/// Tells what comes of each step.
pub(super) fn answer(case: &mut Case) {
    let (first, rest) = case.halves(case.rest(), ";");
    case.turn_to(first);
    let which = case.word();
    let (start, window) = (Seq(case.short()), case.number());
    case.turn_to(rest);
    if window == 0 || window > 20 {
        return case.misread();
    }
    let supply = Supply::new(case.alloc());
    match which {
        "send" => {
            let window = unsafe { ManuallyDrop::new_unchecked(SendWindow::new(start, window)) };
            stepped(case, &mut Sender { window, supply });
        }
        "receive" => {
            let window = unsafe { ManuallyDrop::new_unchecked(RecvWindow::new(start, window)) };
            stepped(case, &mut Receiver { window, supply });
        }
        _ => case.misread(),
    }
}

/// A sender's window, and the buffers that it is handed.
#[derive(Drop)]
struct Sender {
    window: ManuallyDrop<SendWindow>,
    supply: Supply,
}

/// A receiver's window, and the buffers that it is handed.
#[derive(Drop)]
struct Receiver {
    window: ManuallyDrop<RecvWindow>,
    supply: Supply,
}

impl Steps for Sender {
    fn step(&mut self, case: &mut Case) {
        let window = &mut self.window;
        match case.word() {
            "admit" => match admitted(window, &mut self.supply) {
                Some(number) => case.tell_number(u64::from(number)),
                None => case.tell("full"),
            },
            "ack" => {
                let inside = window.acked(Seq(case.short()));
                case.tell(if inside { "inside" } else { "outside" });
                write!(case, " una {}", window.una());
            }
            "drain" => match window.drain() {
                Some(loose) => {
                    leave(loose);
                    case.tell("one");
                }
                None => case.tell("none"),
            },
            _ => case.misread(),
        }
    }
}

/// The number of one more packet, or none where it came back.
fn admitted(window: &mut SendWindow, supply: &mut Supply) -> Option<u16> {
    let buffer = supply.take()?;
    if window.nxt() > 1_000 {
        leave(buffer);
        return None;
    }
    match window.drain() {
        None => match window.admit(buffer) {
            Ok(number) => Some(number.0),
            Err(buffer) => {
                leave(buffer);
                None
            }
        },
        Some(loose) => {
            leave((buffer, loose));
            None
        }
    }
}

impl Steps for Receiver {
    fn step(&mut self, case: &mut Case) {
        match case.word() {
            "offer" => {
                let number = case.short();
                case.tell(offered(&mut self.window, &mut self.supply, number));
            }
            "next" => match delivered(&mut self.window) {
                Some(number) => case.tell_number(u64::from(number)),
                None => case.tell("none"),
            },
            _ => case.misread(),
        }
    }
}

/// What becomes of a packet of this number.
fn offered(window: &mut RecvWindow, supply: &mut Supply, number: u16) -> &'static str {
    let Some(buffer) = supply.take() else {
        return "no buffer";
    };
    match window.offer(Seq(number), buffer) {
        Offer::Kept => "kept",
        Offer::Duplicate(buffer) => {
            leave(buffer);
            "duplicate"
        }
        Offer::Outside(buffer) => {
            leave(buffer);
            "outside"
        }
    }
}

/// The number of the next packet in order, which is delivered, or none.
fn delivered(window: &mut RecvWindow) -> Option<u16> {
    match window.next() {
        Some(buffer) => {
            leave(buffer);
            if window.cur() > 1_000 {
                return None;
            }
            window.confirm();
            Some(window.number(window.cur()).0)
        }
        None => None,
    }
}
