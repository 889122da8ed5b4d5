//! One scenario, and what the program prints for it.

use csp_base::{MemSink, MemSource};
use csp_top::{say, sim_main};
use std::alloc::{AllocError, Global};

/// Room for what a scenario prints.
const ROOM: usize = 262_144;

/// Runs a scenario over memory, and compares what it prints with what is wanted: the number of the first line, from 1, in
/// which they differ, or none where it printed this byte for byte.
pub(crate) fn differing_line(
    alloc: Global,
    text: Vec<u8>,
    wanted: &[u8],
) -> Result<Option<usize>, AllocError> {
    let mut source = MemSource::new(text, Vec::new(alloc));
    let mut sink = MemSink::open(alloc, ROOM, ROOM, Vec::new(alloc))?;
    let status = sim_main(alloc, &mut source, &mut sink);
    // What is said of a refusal stands after what was written, which is nothing where a scenario is refused.
    let _ = say(status, &mut sink);
    Ok(first_difference(sink.written(), wanted))
}

/// The line in which two texts differ first.
fn first_difference(got: &[u8], wanted: &[u8]) -> Option<usize> {
    if got == wanted {
        return None;
    }
    let mut line = 1usize;
    for (place, byte) in got.iter().enumerate() {
        if wanted.get(place) != Some(byte) {
            break;
        }
        if *byte == b'\n' {
            line = line.saturating_add(1);
        }
    }
    Some(line)
}
