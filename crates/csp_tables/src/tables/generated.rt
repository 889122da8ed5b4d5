//! The scenario that the program makes of so many packets, its lines one after the other: `gen PACKETS`.

use csp_cases::Case;
use csp_gen::{MAX_PACKETS, text};

/// Tells the lines of the scenario.
pub(super) fn answer(case: &mut Case) {
    let packets = case.number();
    if packets < 1 || packets > MAX_PACKETS {
        return case.misread();
    }
    match text(case.alloc(), packets) {
        Err(_) => case.lacks_memory(),
        Ok(made) => lines(case, made.as_slice()),
    }
}

/// Tells these lines.
fn lines(case: &mut Case, made: &[u8]) {
    match str::from_utf8(made) {
        Err(_) => case.misread(),
        Ok(made) => {
            for line in made.trim().split("\n") {
                case.next();
                case.tell(line);
            }
        }
    }
}
