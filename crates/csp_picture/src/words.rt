//! The words beside a frame.

ghost use Rattle.std.specs.Prelude.{◌≡◌, ◌++◌, OnOk, codes};
ghost use Rattle.std.specs.String.{string_bytes};
ghost use Rattle.std.specs.Fmt.{decimal};
ghost use Rattle.csp_header.specs.Word.{header_at};
ghost use Rattle.csp_picture.specs.Words.{spaced, word_and_number, port_words, flow_words, kind_words, part_words, parcel_words, again_words, packet_words, sent_words, some_words, flip_words, fate_words};

use crate::seen::Sent;
use csp_base::Tag;
use csp_happenings::{Fate, Kind, Parcel};
use csp_header::Header;
use csp_text::push_number;
use std::alloc::AllocError;

/// Appends a word with a space before it.
pub(crate) fn push_word(out: &mut String, word: &str) -> Result<(), AllocError>
    ensures { OnOk result (string_bytes out.new ≡ string_bytes out.old ++ spaced word.now) }
{
    out.push(' ')?;
    out.push_str(word)
}

/// Appends a number with a space before it.
fn push_count(out: &mut String, number: u64) -> Result<(), AllocError>
    ensures { OnOk result (string_bytes out.new ≡ string_bytes out.old ++ spaced (decimal number)) }
{
    out.push(' ')?;
    push_number(out, number)
}

/// Appends a word and the number that belongs to it.
fn push_counted(out: &mut String, word: &str, number: u64) -> Result<(), AllocError>
    ensures { OnOk result (string_bytes out.new ≡ string_bytes out.old ++ word_and_number word.now number) }
{
    push_word(out, word)?;
    push_count(out, number)
}

/// Appends the ports of a packet.
fn push_ports(out: &mut String, header: &Header) -> Result<(), AllocError>
    ensures { OnOk result (string_bytes out.new ≡ string_bytes out.old ++ port_words header.now) }
{
    push_count(out, u64::from(header.sport.get()))?;
    out.push_str(">")?;
    push_number(out, u64::from(header.dport.get()))
}

/// Appends a word, the number of a flow at its node, and an index in it.
fn push_flow(out: &mut String, word: &str, nth: u32, index: u64) -> Result<(), AllocError>
    ensures { OnOk result (string_bytes out.new ≡ string_bytes out.old ++ flow_words word.now nth index) }
{
    push_counted(out, word, u64::from(nth))?;
    out.push_str(":")?;
    push_number(out, index)
}

/// Appends what a packet is to its flow.
fn push_kind(out: &mut String, kind: Kind, tag: &Tag) -> Result<(), AllocError>
    ensures { OnOk result (string_bytes out.new ≡ string_bytes out.old ++ kind_words kind tag.now) }
{
    match kind {
        Kind::Syn => push_flow(out, "syn", tag.nth, tag.index),
        Kind::Rst => push_flow(out, "rst", tag.nth, tag.index),
        Kind::Eak => push_flow(out, "eak", tag.nth, tag.ack),
        Kind::Ack => push_flow(out, "ack", tag.nth, tag.ack),
        Kind::Data => push_flow(out, "data", tag.nth, tag.index),
        Kind::Short => push_flow(out, "short", tag.nth, tag.index),
    }
}

/// Appends what a packet is: of a flow, or so many bytes.
fn push_part(out: &mut String, packet: &Parcel, tag: Option<Tag>) -> Result<(), AllocError>
    ensures { OnOk result (string_bytes out.new ≡ string_bytes out.old ++ part_words packet.now tag) }
{
    match tag {
        Some(tag) => push_kind(out, packet.kind, &tag),
        None => push_counted(out, "bytes", packet.len as u64),
    }
}

/// Appends the words of a packet.
fn push_parcel(out: &mut String, packet: &Parcel) -> Result<(), AllocError>
    ensures { OnOk result (string_bytes out.new ≡ string_bytes out.old ++ parcel_words packet.now) }
{
    push_ports(out, &Header::decode(packet.header))?;
    push_part(out, packet, packet.trace.tag)
}

/// Appends ` again`, where a packet is transmitted again.
fn push_again(out: &mut String, again: bool) -> Result<(), AllocError>
    ensures { OnOk result (string_bytes out.new ≡ string_bytes out.old ++ again_words again) }
{
    if again {
        push_word(out, "again")
    } else {
        Ok(())
    }
}

/// Appends the words of a packet, where it is known.
fn push_packet(out: &mut String, packet: &Option<Parcel>) -> Result<(), AllocError>
    ensures { OnOk result (string_bytes out.new ≡ string_bytes out.old ++ packet_words packet.now) }
{
    match packet {
        Some(packet) => push_parcel(out, packet),
        None => Ok(()),
    }
}

/// Appends the words of what was transmitted, where that is known.
pub(crate) fn push_sent(out: &mut String, sent: Option<Sent>) -> Result<(), AllocError>
    ensures { OnOk result (string_bytes out.new ≡ string_bytes out.old ++ sent_words sent) }
{
    match sent {
        Some(sent) => {
            push_packet(out, &sent.packet)?;
            push_again(out, sent.again)
        }
        None => Ok(()),
    }
}

/// Appends a word and its number, unless that is 0.
fn push_some(out: &mut String, word: &str, number: u64) -> Result<(), AllocError>
    ensures { OnOk result (string_bytes out.new ≡ string_bytes out.old ++ some_words word.now number) }
{
    if number > 0 {
        push_counted(out, word, number)
    } else {
        Ok(())
    }
}

/// Appends which bit is changed, if one is.
fn push_flip(out: &mut String, flip: Option<u32>) -> Result<(), AllocError>
    ensures { OnOk result (string_bytes out.new ≡ string_bytes out.old ++ flip_words flip) }
{
    match flip {
        Some(bit) => push_counted(out, "flipped", u64::from(bit)),
        None => Ok(()),
    }
}

/// Appends what a plan does to a frame.
pub(crate) fn push_fate(out: &mut String, fate: &Fate) -> Result<(), AllocError>
    ensures { OnOk result (string_bytes out.new ≡ string_bytes out.old ++ fate_words fate.now) }
{
    if fate.lost {
        return push_word(out, "lost");
    }
    push_some(out, "repeated", u64::from(fate.repeats))?;
    push_some(out, "delayed", u64::from(fate.delay))?;
    push_flip(out, fate.flip)
}
