//! The lines of events.

ghost use Rattle.std.specs.Prelude.{◌≡◌, ◌+◌, ◌≤◌, ◌++◌, ◌∷◌, [], length, codes, OnOk};
ghost use Rattle.std.specs.Option.{option_map};
ghost use Rattle.std.specs.Fmt.{decimal};
ghost use Rattle.csp_rdp_header.specs.Head.{parted};
ghost use Rattle.csp_tap.specs.Packets.{before_crc, crc_word, crc_words, event_line, field_words, has_flag, head_words, header_words, hex_bytes, hex_word, layer_words, node_words, packet_line, packet_start, payload_words, port_words, rdp_words};
ghost use Rattle.csp_tap.specs.Pieces.{event_of};
ghost use Rattle.csp_tap.specs.Words.{line as line_of, words};
ghost use Rattle.csp_tap.specs.declared.words.TheConstants.{ROOM};

use crate::piece::Finding;
use crate::words::{
    Line, begin_line, end_line, push_bytes, push_line, put_bytes, put_count, put_counted, put_word,
};
use bitflags::Flags;
use csp_crc::{CrcError, check};
use csp_header::{FlagSet, Header};
use csp_rdp_header::RdpHead;
use std::alloc::AllocError;

/// Whether a header has these flags.
fn has_flag(flags: FlagSet, header: &Header) -> bool
    ensures { result ≡ has_flag flags.0 header.now }
{
    header.flags.contains(flags)
}

/// Appends a number of 32 bits in eight hexadecimal digits.
fn put_hex_word(line: &mut Line, number: u32)
    requires { length line.old.items + 9 ≤ ROOM }
    ensures items { line.new.items ≡ line.old.items ++ words (hex_word number ∷ []) }
    ensures fits { length line.new.items ≤ length line.old.items + 9 }
{
    put_bytes(line, &number.to_be_bytes());
}

/// Appends priority, source and destination.
fn put_nodes(line: &mut Line, header: &Header)
    requires { length line.old.items + 75 ≤ ROOM }
    ensures items { line.new.items ≡ line.old.items ++ words (node_words header.now) }
    ensures fits { length line.new.items ≤ length line.old.items + 75 }
{
    put_counted(line, "pri", u64::from(header.prio.number()));
    put_counted(line, "src", u64::from(header.src.get()));
    put_counted(line, "dst", u64::from(header.dst.get()));
}

/// Appends ports and flags.
fn put_ports(line: &mut Line, header: &Header)
    requires { length line.old.items + 63 ≤ ROOM }
    ensures items { line.new.items ≡ line.old.items ++ words (port_words header.now) }
    ensures fits { length line.new.items ≤ length line.old.items + 63 }
{
    put_counted(line, "dport", u64::from(header.dport.get()));
    put_counted(line, "sport", u64::from(header.sport.get()));
    put_word(line, "flags");
    put_bytes(line, &[header.flags.bits()]);
}

/// Appends the fields of a header.
fn put_header(line: &mut Line, header: &Header)
    requires { length line.old.items + 138 ≤ ROOM }
    ensures items { line.new.items ≡ line.old.items ++ header_words header.now }
    ensures fits { length line.new.items ≤ length line.old.items + 138 }
{
    put_nodes(line, header);
    put_ports(line, header);
}

/// Appends what a packet's own CRC is found to be, where it has one.
fn put_crc(line: &mut Line, flag: bool, payload: &[u8])
    requires { length line.old.items + 10 ≤ ROOM }
    ensures items { line.new.items ≡ line.old.items ++ words (crc_words flag payload.now) }
    ensures fits { length line.new.items ≤ length line.old.items + 10 }
{
    if flag {
        put_word(line, "crc");
        put_word(line, crc_word(payload));
    }
}

/// What a CRC at the end of some bytes is found to be.
fn crc_word(payload: &[u8]) -> &'static str
    ensures word { result.now ≡ crc_word payload.now }
    ensures fits { length result.now ≤ 5 }
{
    match check(payload) {
        Ok(_) => "ok",
        Err(CrcError::Short) => "short",
        Err(CrcError::Wrong { .. }) => "wrong",
    }
}

/// The bytes before a packet's own CRC, where it has one; none where that doesn't stand.
fn before_crc(flag: bool, payload: &[u8]) -> Option<&[u8]>
    ensures { option_map (λ bytes. bytes.now) result ≡ before_crc flag payload.now }
{
    if flag {
        check(payload).ok()
    } else {
        Some(payload)
    }
}

/// Appends the fields of the head at the end of some bytes.
fn put_head(line: &mut Line, bytes: &[u8])
    requires { length line.old.items + 13 ≤ ROOM }
    ensures items { line.new.items ≡ line.old.items ++ words (head_words (parted bytes.now)) }
    ensures fits { length line.new.items ≤ length line.old.items + 13 }
{
    match RdpHead::decode(bytes) {
        Ok((_, head)) => put_fields(line, head),
        Err(_) => put_word(line, "short"),
    }
}

/// Appends the fields of a head.
fn put_fields(line: &mut Line, head: RdpHead)
    requires { length line.old.items + 13 ≤ ROOM }
    ensures items { line.new.items ≡ line.old.items ++ words (field_words head) }
    ensures fits { length line.new.items ≤ length line.old.items + 13 }
{
    put_bytes(line, &[head.flags]);
    put_bytes(line, &head.seq.0.to_be_bytes());
    put_bytes(line, &head.ack.0.to_be_bytes());
}

/// Appends the head of the reliable transport at the end of these bytes, where a packet has one.
fn put_rdp(line: &mut Line, flag: bool, bytes: Option<&[u8]>)
    requires { length line.old.items + 17 ≤ ROOM }
    ensures items { line.new.items ≡ line.old.items ++ words (rdp_words flag (option_map (λ bytes. bytes.now) bytes.entry)) }
    ensures fits { length line.new.items ≤ length line.old.items + 17 }
{
    match bytes {
        Some(bytes) if flag => {
            put_word(line, "rdp");
            put_head(line, bytes);
        }
        _ => {}
    }
}

/// Appends what the flags of a packet say of its payload.
fn put_layers(line: &mut Line, header: &Header, payload: &[u8])
    requires { length line.old.items + 27 ≤ ROOM }
    ensures items { line.new.items ≡ line.old.items ++ layer_words header.now payload.now }
    ensures fits { length line.new.items ≤ length line.old.items + 27 }
{
    let flag = has_flag(FlagSet::CRC32, header);
    put_crc(line, flag, payload);
    put_rdp(
        line,
        has_flag(FlagSet::RDP, header),
        before_crc(flag, payload),
    );
}

/// Begins the line of a packet.
fn put_start(line: &mut Line, number: u64, header: u32)
    requires { length line.old.items + 36 ≤ ROOM }
    ensures items { line.new.items ≡ line.old.items ++ packet_start number header }
    ensures fits { length line.new.items ≤ length line.old.items + 36 }
{
    begin_line(line, "packet");
    put_count(line, number);
    put_hex_word(line, header);
}

/// Appends the line of a packet up to its payload.
fn push_front(
    out: &mut Vec<u8>,
    number: u64,
    header: u32,
    fields: &Header,
    size: usize,
) -> Result<(), AllocError>
    ensures { OnOk result (out.new.items ≡ out.old.items ++ (packet_start number header ++ (header_words fields.now ++ words (codes "len" ∷ decimal size ∷ [])))) }
{
    let mut line = Line::new();
    put_start(&mut line, number, header);
    put_header(&mut line, fields);
    put_counted(&mut line, "len", size as u64);
    push_line(out, &line)
}

/// Appends bytes, `-` for none.
fn push_payload(out: &mut Vec<u8>, payload: &[u8]) -> Result<(), AllocError>
    ensures { OnOk result (out.new.items ≡ out.old.items ++ words (hex_bytes payload.now ∷ [])) }
{
    match payload {
        [] => out.extend_from_slice(b" -"),
        _ => push_bytes(out, payload),
    }
}

/// Appends the line of a packet from its payload on.
fn push_back(out: &mut Vec<u8>, fields: &Header, payload: &[u8]) -> Result<(), AllocError>
    ensures { OnOk result (out.new.items ≡ out.old.items ++ (layer_words fields.now payload.now ++ 10 ∷ [])) }
{
    let mut line = Line::new();
    put_layers(&mut line, fields, payload);
    end_line(&mut line);
    push_line(out, &line)
}

/// Appends the line of a packet.
fn push_packet(
    out: &mut Vec<u8>,
    number: u64,
    header: u32,
    payload: &[u8],
) -> Result<(), AllocError>
    ensures { OnOk result (out.new.items ≡ out.old.items ++ packet_line number header payload.now) }
{
    let fields = Header::decode(header);
    push_front(out, number, header, &fields, payload.len())?;
    push_payload(out, payload)?;
    push_back(out, &fields, payload)
}

/// Appends the line of a refused piece, by the word for it.
fn push_refused(out: &mut Vec<u8>, word: &str, number: u64) -> Result<(), AllocError>
    requires { length word.now ≤ 7 }
    ensures { OnOk result (out.new.items ≡ out.old.items ++ line_of word.now (decimal number ∷ [])) }
{
    let mut line = Line::new();
    begin_line(&mut line, word);
    put_count(&mut line, number);
    end_line(&mut line);
    push_line(out, &line)
}

/// Appends the line of a frame whose CRC is wrong.
fn push_bad_crc(out: &mut Vec<u8>, number: u64, found: u32, wanted: u32) -> Result<(), AllocError>
    ensures { OnOk result (out.new.items ≡ out.old.items ++ line_of (codes "badcrc") (decimal number ∷ hex_word found ∷ hex_word wanted ∷ [])) }
{
    let mut line = Line::new();
    begin_line(&mut line, "badcrc");
    put_count(&mut line, number);
    put_hex_word(&mut line, found);
    put_hex_word(&mut line, wanted);
    end_line(&mut line);
    push_line(out, &line)
}

/// Appends the line of what the piece of this number is found to be.
pub(crate) fn push_finding(
    out: &mut Vec<u8>,
    number: u64,
    finding: Finding<'_>,
) -> Result<(), AllocError>
    ensures { OnOk result (out.new.items ≡ out.old.items ++ event_line number (event_of finding.entry)) }
{
    match finding {
        Finding::Packet { header, payload } => push_packet(out, number, header, payload),
        Finding::TooLong => push_refused(out, "toolong", number),
        Finding::Short => push_refused(out, "short", number),
        Finding::BadCrc { found, wanted } => push_bad_crc(out, number, found, wanted),
    }
}
