//! A packet buffer: `buffer STEP; STEP; ..`, where a step is `push BYTES`, `cut COUNT`, `header WORD`, `clear` or
//! `show`.

use crate::supply::Supply;
use csp_buffer::Buffer;
use csp_cases::{Case, Steps, stepped};
use std::mem::ManuallyDrop;

/// A buffer that stays where it is.
#[derive(Drop)]
struct Kept {
    buffer: ManuallyDrop<Buffer>,
}

/// Tells what comes of each step.
pub(super) fn answer(case: &mut Case) {
    match Supply::new(case.alloc()).take() {
        None => case.lacks_memory(),
        Some(buffer) => {
            let buffer = unsafe { ManuallyDrop::new_unchecked(sent(buffer)) };
            stepped(case, &mut Kept { buffer });
        }
    }
}

/// What may be handed to another thread, as buffers may.
fn sent<T: Send>(value: T) -> T {
    value
}

impl Steps for Kept {
    fn step(&mut self, case: &mut Case) {
        match case.word() {
            "push" => {
                let done = self.buffer.push_tail(case.bytes().as_slice());
                case.tell(if done.is_ok() { "ok" } else { "full" });
            }
            "cut" => {
                let done = self.buffer.cut_tail(usize::from(case.short()));
                case.tell(if done.is_ok() { "ok" } else { "short" });
            }
            "header" => {
                self.buffer.set_header(case.hex_word());
                case.tell("ok");
            }
            "clear" => {
                self.buffer.clear();
                case.tell("ok");
            }
            "show" => content(case, &self.buffer),
            _ => case.misread(),
        }
    }
}

/// Tells the header word and the payload.
fn content(case: &mut Case, buffer: &Buffer) {
    let shown = buffer.show();
    case.tell_word(shown.header);
    case.tell(" ");
    case.tell_bytes(shown.payload.as_slice());
}
