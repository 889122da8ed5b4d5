//! The faults of the first link.

ghost use Rattle.std.specs.Prelude.{◌≡◌, ◌≤◌, ◌++◌, OnOk, codes};
ghost use Rattle.std.specs.String.{string_bytes};
ghost use Rattle.csp_gen.specs.Lines.{text_of};
ghost use Rattle.csp_gen.specs.GenText.{harm_of, fault_lines};

use crate::lines::push_line_with;
use crate::scenario::MAX_PACKETS;
use csp_draw::{drawn, next_draw};
use std::alloc::AllocError;

/// There is a fault for each so many packets.
pub const PACKETS_PER_FAULT: u32 = 20;

/// What the first fault's gap is counted from.
pub const FIRST_FRAME: u32 = 10;

/// The fewest frames from one fault to the next.
pub const LEAST_GAP: u32 = 10;

/// How many gaps there are to draw from.
pub const GAPS: u64 = 20;

/// What happens to the frame of the fault with this number, counted from 1: the end of its line.
fn harm_of(number: u32) -> &'static str
    ensures { result.now ≡ codes " " ++ harm_of number }
{
    match number % 3 {
        1 => " lose",
        2 => " repeat 1",
        _ => " delay 5",
    }
}

/// Appends the lines of the faults.
pub(crate) fn push_faults(out: &mut String, packets: u32) -> Result<(), AllocError>
    requires { packets ≤ MAX_PACKETS }
    ensures { OnOk result (string_bytes out.new ≡ string_bytes out.old ++ text_of (fault_lines packets)) }
{
    let mut number = u64::from(packets);
    let mut frame = FIRST_FRAME;
    for fault in 0..packets / PACKETS_PER_FAULT {
        number = next_draw(number);
        frame += LEAST_GAP + drawn(GAPS, number) as u32;
        push_line_with(out, "fault radio ab ", frame, harm_of(fault + 1))?;
    }
    Ok(())
}
