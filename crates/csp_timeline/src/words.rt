//! The words of a line.

ghost use Rattle.std.specs.Prelude.{◌≡◌, ◌∷◌, ◌++◌, [], codes, OnOk};
ghost use Rattle.std.specs.String.{string_bytes};
ghost use Rattle.std.specs.Fmt.{decimal};
ghost use Rattle.std.specs.Int.{w32, to_be_bytes};
ghost use Rattle.hex.specs.Hex.{encode_lower};
ghost use Rattle.csp_timeline.specs.Words.{word, numbered, hex_pair, end_word, ends_words, header_words, origin_words, kind_word, tag_words, packet_words, some_packet_words, can_words, frame_words, some_words, flip_words, fate_words, from_words, dest_words, slotted, target_words, terms_words, note_words, sent_words};

use crate::labels::{node_name, push_iface_label};
use bitflags::Flags;
use csp_base::{Addr, Origin, Port, Prio, Tag};
use csp_happenings::{Fate, Kind, Parcel};
use csp_header::Header;
use csp_log::{Note, Piece, UNMARKED};
use csp_report::{push_count, push_counted, push_word, word_of_refusal};
use csp_scene::Scene;
use csp_text::{push_hex, push_number};
use std::alloc::{AllocError, Global};

/// Appends eight bits in two hexadecimal digits, after their name.
fn push_pair(alloc: Global, out: &mut String, name: &str, byte: u8) -> Result<(), AllocError>
    ensures { OnOk result (string_bytes out.new ≡ string_bytes out.old ++ hex_pair name.now byte) }
{
    push_word(out, name)?;
    out.push(' ')?;
    push_hex(alloc, out, &[byte])
}

/// Appends an address and a port: `ADDR:PORT`.
fn push_end(out: &mut String, addr: Addr, port: Port) -> Result<(), AllocError>
    ensures { OnOk result (string_bytes out.new ≡ string_bytes out.old ++ end_word addr port) }
{
    push_number(out, u64::from(addr.get()))?;
    out.push(':')?;
    push_number(out, u64::from(port.get()))
}

/// Appends who sends a packet to whom: ` SRC:SPORT>DST:DPORT`.
fn push_ends(out: &mut String, header: &Header) -> Result<(), AllocError>
    ensures { OnOk result (string_bytes out.new ≡ string_bytes out.old ++ ends_words header.now) }
{
    out.push(' ')?;
    push_end(out, header.src, header.sport)?;
    out.push('>')?;
    push_end(out, header.dst, header.dport)
}

/// Appends a header.
fn push_header(alloc: Global, out: &mut String, header: &Header) -> Result<(), AllocError>
    ensures { OnOk result (string_bytes out.new ≡ string_bytes out.old ++ header_words header.now) }
{
    push_ends(out, header)?;
    push_counted(out, "pri", u64::from(header.prio.number()))?;
    push_pair(alloc, out, "flags", header.flags.bits())
}

/// Appends the transmission that a packet came by, if it came by one.
fn push_origin(out: &mut String, scene: &Scene, origin: Option<Origin>) -> Result<(), AllocError>
    ensures { OnOk result (string_bytes out.new ≡ string_bytes out.old ++ origin_words scene.now origin) }
{
    match origin {
        Some(origin) => {
            push_word(out, "from")?;
            out.push(' ')?;
            push_iface_label(out, scene, origin.node, origin.iface)?;
            push_count(out, origin.serial)
        }
        None => Ok(()),
    }
}

/// The word for what a packet is to its reliable connection.
fn kind_word(kind: Kind) -> &'static str
    ensures { result.now ≡ kind_word kind }
{
    match kind {
        Kind::Syn => "syn",
        Kind::Rst => "rst",
        Kind::Eak => "eak",
        Kind::Ack => "ack",
        Kind::Data => "data",
        Kind::Short => "short",
    }
}

/// Appends a flow, and the numbers of a packet there, if it has any.
fn push_tag(
    out: &mut String,
    scene: &Scene,
    which: &str,
    tag: Option<Tag>,
) -> Result<(), AllocError>
    ensures { OnOk result (string_bytes out.new ≡ string_bytes out.old ++ tag_words scene.now which.now tag) }
{
    match tag {
        Some(tag) => {
            push_word(out, "rdp")?;
            push_counted(out, node_name(scene, tag.node), u64::from(tag.nth))?;
            push_counted(out, which, tag.index)?;
            push_counted(out, "upto", tag.ack)
        }
        None => Ok(()),
    }
}

/// Appends a packet.
pub(crate) fn push_packet(
    alloc: Global,
    out: &mut String,
    scene: &Scene,
    packet: &Parcel,
) -> Result<(), AllocError>
    ensures { OnOk result (string_bytes out.new ≡ string_bytes out.old ++ packet_words scene.now packet.now) }
{
    push_header(alloc, out, &Header::decode(packet.header))?;
    push_counted(out, "len", packet.len as u64)?;
    push_origin(out, scene, packet.trace.origin)?;
    push_tag(out, scene, kind_word(packet.kind), packet.trace.tag)
}

/// Appends a packet, if there is one.
pub(crate) fn push_some_packet(
    alloc: Global,
    out: &mut String,
    scene: &Scene,
    packet: Option<Parcel>,
) -> Result<(), AllocError>
    ensures { OnOk result (string_bytes out.new ≡ string_bytes out.old ++ some_packet_words scene.now packet) }
{
    match packet {
        Some(packet) => push_packet(alloc, out, scene, &packet),
        None => Ok(()),
    }
}

/// Appends the identifier of a frame of a CAN link.
fn push_can(alloc: Global, out: &mut String, can: Option<u32>) -> Result<(), AllocError>
    ensures { OnOk result (string_bytes out.new ≡ string_bytes out.old ++ can_words can) }
{
    match can {
        Some(id) => {
            push_word(out, "id")?;
            out.push(' ')?;
            push_hex(alloc, out, &id.to_be_bytes())
        }
        None => Ok(()),
    }
}

/// Appends a frame.
pub(crate) fn push_frame(
    alloc: Global,
    out: &mut String,
    scene: &Scene,
    frame: &Piece,
) -> Result<(), AllocError>
    ensures { OnOk result (string_bytes out.new ≡ string_bytes out.old ++ frame_words scene.now frame.now) }
{
    push_counted(out, "len", frame.len as u64)?;
    push_can(alloc, out, frame.can)?;
    push_origin(out, scene, frame.trace.origin)?;
    push_tag(out, scene, "index", frame.trace.tag)
}

/// Appends a number after its name, if it is not 0.
fn push_some(out: &mut String, name: &str, number: u64) -> Result<(), AllocError>
    ensures { OnOk result (string_bytes out.new ≡ string_bytes out.old ++ some_words name.now number) }
{
    if number == 0 {
        Ok(())
    } else {
        push_counted(out, name, number)
    }
}

/// Appends the bit that was changed, if one was.
fn push_flip(out: &mut String, flip: Option<u32>) -> Result<(), AllocError>
    ensures { OnOk result (string_bytes out.new ≡ string_bytes out.old ++ flip_words flip) }
{
    match flip {
        Some(bit) => push_counted(out, "flipped", u64::from(bit)),
        None => Ok(()),
    }
}

/// Appends what becomes of a frame.
pub(crate) fn push_fate(out: &mut String, fate: &Fate) -> Result<(), AllocError>
    ensures { OnOk result (string_bytes out.new ≡ string_bytes out.old ++ fate_words fate.now) }
{
    if fate.lost {
        return push_word(out, "lost");
    }
    push_some(out, "repeated", u64::from(fate.repeats))?;
    push_some(out, "delayed", u64::from(fate.delay))?;
    push_flip(out, fate.flip)
}

/// Appends the port that is asked for, if one is.
fn push_from(out: &mut String, from: Option<Port>) -> Result<(), AllocError>
    ensures { OnOk result (string_bytes out.new ≡ string_bytes out.old ++ from_words from) }
{
    match from {
        Some(port) => push_counted(out, "from", u64::from(port.get())),
        None => Ok(()),
    }
}

/// Appends that a port is asked for.
fn push_bind(alloc: Global, out: &mut String, port: Port, need: u8) -> Result<(), AllocError>
    ensures { OnOk result (string_bytes out.new ≡ string_bytes out.old ++ note_words (Note.Bind port need)) }
{
    push_counted(out, "bind", u64::from(port.get()))?;
    push_pair(alloc, out, "flags", need)
}

/// Appends a word and a slot.
fn push_slotted(out: &mut String, word: &str, slot: u8) -> Result<(), AllocError>
    ensures { OnOk result (string_bytes out.new ≡ string_bytes out.old ++ slotted word.now slot) }
{
    push_word(out, word)?;
    push_counted(out, "slot", u64::from(slot))
}

/// Appends the node and the port that a connection is asked for to.
fn push_dest(out: &mut String, dest: Addr, port: Port) -> Result<(), AllocError>
    ensures { OnOk result (string_bytes out.new ≡ string_bytes out.old ++ dest_words dest port) }
{
    push_counted(out, "to", u64::from(dest.get()))?;
    push_counted(out, "port", u64::from(port.get()))
}

/// Appends that a connection is asked for, on which slot and to which port of which node.
fn push_target(out: &mut String, slot: u8, dest: Addr, port: Port) -> Result<(), AllocError>
    ensures { OnOk result (string_bytes out.new ≡ string_bytes out.old ++ target_words slot dest port) }
{
    push_slotted(out, "connect", slot)?;
    push_dest(out, dest, port)
}

/// Appends the priority and the flags of a connection, and the own port that is asked for.
fn push_terms(
    alloc: Global,
    out: &mut String,
    prio: Prio,
    flags: u8,
    from: Option<Port>,
) -> Result<(), AllocError>
    ensures { OnOk result (string_bytes out.new ≡ string_bytes out.old ++ terms_words prio flags from) }
{
    push_counted(out, "pri", u64::from(prio.number()))?;
    push_pair(alloc, out, "flags", flags)?;
    push_from(out, from)
}

/// Appends what is asked, or answered.
pub(crate) fn push_note(alloc: Global, out: &mut String, note: Note) -> Result<(), AllocError>
    ensures { OnOk result (string_bytes out.new ≡ string_bytes out.old ++ note_words note) }
{
    match note {
        Note::Bind { port, need } => push_bind(alloc, out, port, need),
        Note::Connect {
            slot,
            dest,
            port,
            prio,
            flags,
            from,
        } => {
            push_target(out, slot, dest, port)?;
            push_terms(alloc, out, prio, flags, from)
        }
        Note::Close { slot } => push_counted(out, "close", u64::from(slot)),
        Note::Bound => push_word(out, "bound"),
        Note::Connected { slot } => push_counted(out, "connected", u64::from(slot)),
        Note::Refused { why } => {
            push_word(out, "refused")?;
            push_word(out, word_of_refusal(why))
        }
        Note::Closed { slot } => push_counted(out, "closed", u64::from(slot)),
        Note::Down { slot } => push_counted(out, "down", u64::from(slot)),
    }
}

/// Appends a packet that an application sends, with its mark.
pub(crate) fn push_sent(
    alloc: Global,
    out: &mut String,
    scene: &Scene,
    mark: u8,
    packet: &Parcel,
) -> Result<(), AllocError>
    ensures { OnOk result (string_bytes out.new ≡ string_bytes out.old ++ sent_words scene.now mark packet.now) }
{
    if mark == UNMARKED {
        push_word(out, "raw")?;
        push_packet(alloc, out, scene, packet)
    } else {
        push_counted(out, "slot", u64::from(mark))?;
        push_counted(out, "len", packet.len as u64)
    }
}
