//! Blobs in pieces: `sfp cut SIZE BLOB`, `sfp gather PAYLOAD PAYLOAD ..`.

use csp_cases::Case;
use csp_sfp::{Collector, MAX_BLOB, MAX_SIZE, Pieces, SfpAnswer};

/// Tells the pieces of a blob, or what a collector answers to payloads.
pub(super) fn answer(case: &mut Case) {
    match case.word() {
        "cut" => cut(case),
        "gather" => gather(case),
        _ => case.misread(),
    }
}

/// Tells the pieces of a blob.
fn cut(case: &mut Case) {
    let size = case.short();
    let blob = case.bytes_within(MAX_BLOB);
    if size == 0 || size > MAX_SIZE || blob.is_empty() {
        return case.misread();
    }
    for piece in Pieces::new(blob.as_slice(), size) {
        case.next();
        case.tell_bytes(piece.as_slice());
    }
}

/// Tells what a collector that has gathered nothing answers to one payload after the other.
fn gather(case: &mut Case) {
    match Collector::open(case.alloc()) {
        Err(_) => case.lacks_memory(),
        Ok(mut collector) => {
            for word in case.rest().split_whitespace() {
                let payload = case.bytes_of(word);
                case.next();
                gathered(case, &mut collector, payload.as_slice());
            }
        }
    }
}

/// Tells what a collector answers to a payload.
fn gathered(case: &mut Case, collector: &mut Collector, payload: &[u8]) {
    match collector.piece(payload) {
        Ok(SfpAnswer::Part) => case.tell("part"),
        Ok(SfpAnswer::Whole) => {
            case.tell("whole ");
            case.tell_bytes(collector.blob());
        }
        Err(error) => case.tell_shown(&error),
    }
}
