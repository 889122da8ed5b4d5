//! Heads, options and lists of the reliable transport: `rdp head BYTES`, `rdp write FLAGS NUMBER NUMBER`,
//! `rdp options BYTES`, `rdp offer NUMBER ..`, `rdp list BYTES`, `rdp listed NUMBER ..`.

use arrayvec::ArrayVec;
use csp_base::Seq;
use csp_cases::Case;
use csp_rdp_header::{MAX_KEPT, MAX_LISTED, Options, RdpHead, eak_decode, eak_encode};

/// Tells what bytes are, or the bytes of numbers.
pub(super) fn answer(case: &mut Case) {
    match case.word() {
        "write" => {
            let head = head(case);
            case.tell_bytes(&head.encode());
        }
        "offer" => {
            let options = options(case);
            case.tell_bytes(&options.encode());
        }
        "listed" => listed(case),
        how => {
            let bytes = case.bytes();
            of_bytes(case, how, bytes.as_slice());
        }
    }
}

/// Tells what bytes are.
fn of_bytes(case: &mut Case, how: &str, bytes: &[u8]) {
    match how {
        "head" => told_head(case, bytes),
        "options" => told_options(case, bytes),
        "list" => list(case, bytes),
        _ => case.misread(),
    }
}

/// The options that six words state.
pub(super) fn options(case: &mut Case) -> Options {
    let [
        window,
        conn_timeout,
        packet_timeout,
        delayed,
        ack_timeout,
        ack_count,
    ] = case.numbers::<6>();
    Options {
        window,
        conn_timeout,
        packet_timeout,
        delayed,
        ack_timeout,
        ack_count,
    }
}

/// The head that three words state.
pub(super) fn head(case: &mut Case) -> RdpHead {
    let flags = case.small();
    let [seq, ack] = case.shorts::<2>();
    RdpHead {
        flags,
        seq: Seq(seq),
        ack: Seq(ack),
    }
}

/// Tells what stands before a head, and the head.
fn told_head(case: &mut Case, bytes: &[u8]) {
    match RdpHead::decode(bytes) {
        Ok((before, head)) => {
            let (flags, seq, ack) = (head.flags, head.seq.0, head.ack.0);
            case.tell_bytes(before);
            write!(case, " flags {flags} number {seq} acknowledges {ack}");
        }
        Err(_) => case.tell("short"),
    }
}

/// Tells the options that bytes are, or why they are none.
fn told_options(case: &mut Case, bytes: &[u8]) {
    match Options::decode(bytes) {
        Ok(options) => case.tell_shown(&options),
        Err(error) => case.tell_shown(&error),
    }
}

/// Tells the numbers of a list.
fn list(case: &mut Case, bytes: &[u8]) {
    let mut numbers = ArrayVec::<Seq, MAX_LISTED>::new();
    match eak_decode(bytes, &mut numbers) {
        Ok(()) => {
            case.tell("numbers");
            for number in numbers.as_slice() {
                write!(case, " {}", number.0);
            }
        }
        Err(_) => case.tell("bad length"),
    }
}

/// Tells the bytes of a list.
fn listed(case: &mut Case) {
    let mut numbers = ArrayVec::<Seq, MAX_KEPT>::new();
    for word in case.rest().split_whitespace() {
        if numbers.try_push(Seq(case.short_of(word))).is_err() {
            case.misread();
        }
    }
    let mut bytes = ArrayVec::<u8, 80>::new();
    eak_encode(numbers.as_slice(), &mut bytes);
    case.tell_bytes(bytes.as_slice());
}
