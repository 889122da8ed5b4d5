//! Fragments on a CAN bus: `can frames HEADER PAYLOAD NEXT NUMBER`, `can count LENGTH`, `can ends LENGTH`, and
//! `can heard FRAME ..`, where a frame is `IDENTIFIER:DATA`, `@TIME` says when the frames after it come, and `mtu M`
//! before the frames says another greatest payload than 256.

use csp_base::{Addr, MAX_PAYLOAD, Trace};
use csp_can::{CanAnswer, CanEvent, CanFrame, Fragments, MAX_DATA, Reassembly, fragments};
use csp_cases::Case;

/// The greatest payload where nothing else is said.
const USUAL_MTU: u16 = 256;

/// Tells the frames of a packet, how many there are, or what a listener answers to frames.
pub(super) fn answer(case: &mut Case) {
    match case.word() {
        "frames" => frames(case),
        "count" => count(case),
        "ends" => ends(case),
        "heard" => heard(case),
        _ => case.misread(),
    }
}

/// The frames of this packet, where there is one.
fn fragments_of(header: u32, payload: &[u8], next: Addr, number: u16) -> Option<Fragments> {
    if payload.len() > MAX_PAYLOAD || number >= 1024 {
        return None;
    }
    Some(fragments(header, payload, next, number))
}

/// Tells the frames of a packet, one after the other.
fn frames(case: &mut Case) {
    let header = case.hex_word();
    let (payload, next, number) = (case.bytes(), case.addr(), case.short());
    match fragments_of(header, payload.as_slice(), next, number) {
        None => case.misread(),
        Some(all) => {
            let mut is_first = true;
            for frame in all {
                case.tell(if is_first { "" } else { " " });
                tell_frame(case, &frame);
                is_first = false;
            }
        }
    }
}

/// Tells a frame.
fn tell_frame(case: &mut Case, frame: &CanFrame) {
    case.tell_word(frame.id);
    case.tell(":");
    case.tell_bytes(frame.bytes.as_slice());
}

/// The frames of a packet with so many bytes as are asked, from node 1 to node 2, whose number is 5.
fn fragments_long(case: &mut Case) -> Option<Fragments> {
    let length = usize::from(case.short());
    let bytes = vec![in case.alloc(); 7u8; length].ok()?;
    fragments_of(0x8222_B000, bytes.as_slice(), Addr::new(2)?, 5)
}

/// Tells how many frames a packet with so many bytes has.
fn count(case: &mut Case) {
    match fragments_long(case) {
        None => case.misread(),
        Some(all) => {
            let mut count = 0u64;
            for _frame in all {
                count = count.saturating_add(1);
            }
            case.tell_number(count);
        }
    }
}

/// Tells the identifiers of the first and the last frame of a packet with so many bytes.
fn ends(case: &mut Case) {
    let mut first = None;
    let mut last = 0;
    if let Some(all) = fragments_long(case) {
        for frame in all {
            first = first.or(Some(frame.id));
            last = frame.id;
        }
    }
    match first {
        None => case.misread(),
        Some(first) => write!(case, "{first:08x} {last:08x}"),
    }
}

/// A listener to packets of the greatest payload that is asked, or of 256 bytes.
fn listener(case: &mut Case) -> Option<Reassembly> {
    let mtu = if case.passes("mtu") {
        case.short()
    } else {
        USUAL_MTU
    };
    if usize::from(mtu) > MAX_PAYLOAD {
        return None;
    }
    Some(Reassembly::new(mtu))
}

/// Tells what a listener answers to each frame. A whole packet is told by its header, its payload and the place in the
/// list of the frame that began it, counted from 0.
fn heard(case: &mut Case) {
    let Some(mut listener) = listener(case) else {
        return case.misread();
    };
    let mut time = 0;
    let mut place = 0u64;
    for word in case.rest().split_whitespace() {
        if let Some(later) = word.strip_prefix("@") {
            time = case.long_of(later);
        } else {
            let answer = listen(case, &mut listener, word, place, time);
            tell_answer(case, &answer);
            place = place.saturating_add(1);
        }
    }
}

/// What a listener answers to a frame.
fn listen(
    case: &mut Case,
    listener: &mut Reassembly,
    frame: &str,
    place: u64,
    time: u64,
) -> Option<CanAnswer> {
    let (id, data) = frame.split_once(":")?;
    let id = case.word_of(id);
    let bytes = case.bytes_of(data);
    if id >= 0x2000_0000 || bytes.len() > MAX_DATA {
        return None;
    }
    let trace = Trace {
        origin: None,
        hops: place,
        tag: None,
    };
    Some(listener.frame(id, bytes.as_slice(), trace, time))
}

/// Tells an answer.
fn tell_answer(case: &mut Case, answer: &Option<CanAnswer>) {
    let Some(answer) = answer else {
        return case.misread();
    };
    case.next();
    if answer.restarted {
        case.tell("restarted ");
    }
    let refusal = match &answer.event {
        CanEvent::Whole {
            header,
            payload,
            trace,
        } => {
            let begun = trace.hops;
            write!(case, "whole from {begun} {header:08x} ");
            return case.tell_bytes(payload.as_slice());
        }
        CanEvent::Part => "part",
        CanEvent::NoBegin => "no begin",
        CanEvent::ShortBegin => "short begin",
        CanEvent::BadRemain => "bad remain",
        CanEvent::TooMuch => "too much",
        CanEvent::TooLong => "too long",
        CanEvent::NoRoom => "no room",
    };
    case.tell(refusal);
}
