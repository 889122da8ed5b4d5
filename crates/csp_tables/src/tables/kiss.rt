//! KISS frames and streams: `kiss frame HEADER PAYLOAD`, `kiss stream BYTES`, `kiss read BYTES BYTES ..`. Before these
//! words may stand `covered`, where the CRC covers the header, and then `mtu M`, for another greatest payload than 256.

use arrayvec::ArrayVec;
use csp_base::{MAX_FRAME, MAX_PAYLOAD};
use csp_cases::Case;
use csp_kiss::{KissEvent, KissProgress, KissReader, encode};

/// The greatest payload where nothing else is said.
const USUAL_MTU: u16 = 256;

/// Tells the frame of a packet, the events of a stream, or what is read of bytes that come in several pieces.
pub(super) fn answer(case: &mut Case) {
    let cover = case.passes("covered");
    let mtu = if case.passes("mtu") {
        case.short()
    } else {
        USUAL_MTU
    };
    if usize::from(mtu) > MAX_PAYLOAD {
        return case.misread();
    }
    match case.word() {
        "frame" => frame(case, cover),
        "stream" => events(case, KissReader::new(cover, mtu)),
        "read" => progress(case, KissReader::new(cover, mtu)),
        _ => case.misread(),
    }
}

/// Tells the bytes of a frame.
fn frame(case: &mut Case, cover: bool) {
    let header = case.hex_word();
    let payload = case.bytes_within(MAX_PAYLOAD);
    let mut bytes = ArrayVec::<u8, MAX_FRAME>::new();
    encode(header, payload.as_slice(), cover, &mut bytes);
    case.tell_bytes(bytes.as_slice());
}

/// Tells the events of a stream that is read byte by byte, each with the number of bytes that were read when it came.
fn events(case: &mut Case, mut reader: KissReader) {
    let stream = case.bytes();
    for (before, byte) in stream.iter().enumerate() {
        if let Some(event) = reader.byte(*byte) {
            case.next();
            tell_event(case, &event);
            write!(case, " at {}", before.saturating_add(1));
        }
    }
}

/// Tells a packet: its header word and its payload.
fn tell_packet(case: &mut Case, header: u32, payload: &[u8]) {
    write!(case, "packet {header:08x} ");
    case.tell_bytes(payload);
}

/// Tells an event.
fn tell_event(case: &mut Case, event: &KissEvent) {
    match event {
        KissEvent::Packet { header, payload } => tell_packet(case, *header, payload.as_slice()),
        KissEvent::TooLong => case.tell("too long"),
        KissEvent::Short => case.tell("short"),
        KissEvent::BadCrc { found, wanted } => {
            write!(case, "bad crc {found:08x} for {wanted:08x}");
        }
    }
}

/// Tells what a reader makes of pieces that come one after the other: how many bytes it used of each, how many refused
/// frames it passed and the packet that it found.
fn progress(case: &mut Case, mut reader: KissReader) {
    for piece in case.rest().split_whitespace() {
        let bytes = case.bytes_of(piece);
        let step = reader.read_on(bytes.as_slice());
        case.next();
        tell_step(case, &step);
    }
}

/// Tells what one piece came to.
fn tell_step(case: &mut Case, step: &KissProgress) {
    let (used, refused) = (step.used, step.refused);
    write!(case, "used {used} refused {refused} ");
    match &step.packet {
        Some(packet) => tell_packet(case, packet.header, packet.payload.as_slice()),
        None => case.tell("no packet"),
    }
}
