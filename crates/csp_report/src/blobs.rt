//! The lines of the blobs that an application collected on a connection, and of the pieces that it refused there.

ghost use Rattle.std.specs.Prelude.{◌≡◌, ◌++◌, ◌∷◌, [], if◌then◌else◌, map, filter, OnOk, IfOk};
ghost use Rattle.std.specs.String.{string_bytes};
ghost use Rattle.csp_report.specs.Blobs.{word_of_bad_piece, crc_word, is_of_blobs, blob_told, refusal_told, blobs_on, refusals_on, blob_line, blob_lines, badblob_line, collected_lines};
ghost use Rattle.csp_report.specs.Lines.{ended_line, text_of};

use crate::lines::{end_line, push_count, push_word};
use crate::named::{Named, push_named};
use csp_log::Event;
use csp_sfp::SfpError;
use csp_text::push_hex;
use std::alloc::{AllocError, Global};

/// A blob that an application collected: its length in bytes, and its CRC-32C.
#[derive(Clone, Copy)]
pub(crate) struct Blob {
    len: u32,
    crc: u32,
}

/// The word of why a piece was refused.
pub fn word_of_bad_piece(why: SfpError) -> &'static str
    ensures { result.now ≡ word_of_bad_piece why }
{
    match why {
        SfpError::Short => "short",
        SfpError::NoData => "nodata",
        SfpError::BadTotal { .. } => "badtotal",
        SfpError::WrongTotal { .. } => "wrongtotal",
        SfpError::WrongOffset { .. } => "wrongoffset",
        SfpError::TooMuch { .. } => "toomuch",
    }
}

/// Whether an event tells of blobs.
fn is_of_blobs(event: Event) -> bool
    ensures { result ≡ is_of_blobs event }
{
    matches!(event, Event::BlobTook { .. } | Event::BlobRefused { .. })
}

/// Appends an event, if it tells of blobs.
fn keep(told: &mut Vec<Event>, event: Event) -> Result<(), AllocError>
    ensures { OnOk result (told.new.items ≡ told.old.items ++ (if is_of_blobs event then event ∷ [] else [])) }
{
    if is_of_blobs(event) {
        told.push(event)?;
    }
    Ok(())
}

/// Those of these events that tell of blobs, in order.
pub(crate) fn of_blobs(alloc: Global, events: &[Event]) -> Result<Vec<Event>, AllocError>
    ensures { IfOk result (λ told. told.items ≡ filter is_of_blobs events.now) }
{
    let mut told = Vec::new(alloc);
    for event in events {
        keep(&mut told, *event)?;
    }
    Ok(told)
}

/// The blob that an event tells to be whole on the connection of this slot and this ordinal.
fn blob_told(slot: u8, ordinal: u64, event: Event) -> Option<Blob>
    ensures { result ≡ blob_told slot ordinal event }
{
    match event {
        Event::BlobTook {
            slot: s,
            ordinal: o,
            len,
            crc,
        } if s == slot && u64::from(o) == ordinal => Some(Blob { len, crc }),
        _ => None,
    }
}

/// Why the piece was refused that an event tells of, on the connection of this slot and this ordinal.
fn refusal_told(slot: u8, ordinal: u64, event: Event) -> Option<SfpError>
    ensures { result ≡ refusal_told slot ordinal event }
{
    match event {
        Event::BlobRefused {
            slot: s,
            ordinal: o,
            why,
        } if s == slot && u64::from(o) == ordinal => Some(why),
        _ => None,
    }
}

/// Appends a further word that is a CRC, in eight hexadecimal digits.
pub fn push_crc(alloc: Global, out: &mut String, crc: u32) -> Result<(), AllocError>
    ensures { OnOk result (string_bytes out.new ≡ string_bytes out.old ++ 32 ∷ crc_word crc) }
{
    out.push(' ')?;
    push_hex(alloc, out, &crc.to_be_bytes())
}

/// Appends the line of a blob with its number.
fn push_blob(
    alloc: Global,
    out: &mut String,
    named: &Named,
    number: u64,
    blob: Blob,
) -> Result<(), AllocError>
    ensures { OnOk result (string_bytes out.new ≡ string_bytes out.old ++ ended_line (blob_line named.now.node.now named.now.app.now named.now.slot named.now.ordinal number blob)) }
{
    push_named(out, "blob", named)?;
    push_count(out, number)?;
    push_count(out, u64::from(blob.len))?;
    push_crc(alloc, out, blob.crc)?;
    end_line(out)
}

/// Appends the lines of the blobs that these events tell of on a connection, numbered from 1.
fn push_blobs(
    alloc: Global,
    out: &mut String,
    named: &Named,
    events: &[Event],
) -> Result<(), AllocError>
    ensures { OnOk result (string_bytes out.new ≡ string_bytes out.old ++ text_of (blob_lines named.now.node.now named.now.app.now named.now.slot named.now.ordinal (blobs_on named.now.slot named.now.ordinal events.now))) }
{
    let mut number = 0;
    for event in events {
        if let Some(blob) = blob_told(named.slot, named.ordinal, *event) {
            number += 1;
            push_blob(alloc, out, named, number, blob)?;
        }
    }
    Ok(())
}

/// Appends the line of a piece that was refused for this reason.
fn push_refusal(out: &mut String, named: &Named, why: SfpError) -> Result<(), AllocError>
    ensures { OnOk result (string_bytes out.new ≡ string_bytes out.old ++ ended_line (badblob_line named.now.node.now named.now.app.now named.now.slot named.now.ordinal why)) }
{
    push_named(out, "badblob", named)?;
    push_word(out, word_of_bad_piece(why))?;
    end_line(out)
}

/// Appends the lines of the pieces that these events tell to be refused on a connection.
fn push_refusals(out: &mut String, named: &Named, events: &[Event]) -> Result<(), AllocError>
    ensures { OnOk result (string_bytes out.new ≡ string_bytes out.old ++ text_of (map (badblob_line named.now.node.now named.now.app.now named.now.slot named.now.ordinal) (refusals_on named.now.slot named.now.ordinal events.now))) }
{
    for event in events {
        if let Some(why) = refusal_told(named.slot, named.ordinal, *event) {
            push_refusal(out, named, why)?;
        }
    }
    Ok(())
}

/// Appends what these events tell of a connection: the blobs that were collected, and then the pieces that were refused.
pub(crate) fn push_collected(
    alloc: Global,
    out: &mut String,
    named: &Named,
    events: &[Event],
) -> Result<(), AllocError>
    ensures { OnOk result (string_bytes out.new ≡ string_bytes out.old ++ text_of (collected_lines named.now.node.now named.now.app.now named.now.slot named.now.ordinal events.now)) }
{
    push_blobs(alloc, out, named, events)?;
    push_refusals(out, named, events)
}
