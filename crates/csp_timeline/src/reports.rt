//! What parties report, in words.

ghost use Rattle.std.specs.Prelude.{◌≡◌, ◌++◌, OnOk};
ghost use Rattle.std.specs.String.{string_bytes};
ghost use Rattle.csp_timeline.specs.Words.{peer_words, opened_words, event_words, hands_words, opens_words, step_words, refused_words, slot_words, blob_words, bad_piece_words, number_words};

use crate::labels::{app_name, node_name};
use csp_log::{Event, Why};
use csp_report::{
    push_count, push_counted, push_crc, push_word, word_of, word_of_bad_piece, word_of_refusal,
};
use csp_scene::Scene;
use csp_sfp::SfpError;
use std::alloc::{AllocError, Global};

/// Appends the peer's flow, if there is one.
fn push_peer(out: &mut String, scene: &Scene, peer: Option<(u8, u32)>) -> Result<(), AllocError>
    ensures { OnOk result (string_bytes out.new ≡ string_bytes out.old ++ peer_words scene.now peer) }
{
    match peer {
        Some((node, nth)) => {
            push_word(out, "peer")?;
            push_counted(out, node_name(scene, node), u64::from(nth))
        }
        None => Ok(()),
    }
}

/// Appends what kind of connection is open.
fn push_opened(
    out: &mut String,
    scene: &Scene,
    nth: Option<u32>,
    peer: Option<(u8, u32)>,
) -> Result<(), AllocError>
    ensures { OnOk result (string_bytes out.new ≡ string_bytes out.old ++ opened_words scene.now nth peer) }
{
    match nth {
        Some(nth) => {
            push_counted(out, "rdp", u64::from(nth))?;
            push_peer(out, scene, peer)
        }
        None => push_word(out, "plain"),
    }
}

/// Appends that a connection of this application is open.
fn push_opens(
    out: &mut String,
    scene: &Scene,
    app: (u8, u8),
    slot: u8,
    nth: Option<u32>,
    peer: Option<(u8, u32)>,
) -> Result<(), AllocError>
    ensures { OnOk result (string_bytes out.new ≡ string_bytes out.old ++ opens_words scene.now app slot nth peer) }
{
    out.push_str("opens")?;
    push_counted(out, app_name(scene, app.0, app.1), u64::from(slot))?;
    push_opened(out, scene, nth, peer)
}

/// Appends that a packet is handed to a reliable connection, and where that stands.
fn push_hands(out: &mut String, nth: u32, cur: u64, una: u64) -> Result<(), AllocError>
    ensures { OnOk result (string_bytes out.new ≡ string_bytes out.old ++ hands_words nth cur una) }
{
    out.push_str("hands")?;
    push_counted(out, "rdp", u64::from(nth))?;
    push_counted(out, "at", cur)?;
    push_counted(out, "una", una)
}

/// Appends what became of a step.
fn push_step(out: &mut String, verb: &str, step: u32) -> Result<(), AllocError>
    ensures { OnOk result (string_bytes out.new ≡ string_bytes out.old ++ step_words verb.now step) }
{
    out.push_str(verb)?;
    push_counted(out, "step", u64::from(step))
}

/// Appends that a step's request was refused.
fn push_refused(out: &mut String, step: u32, why: Why) -> Result<(), AllocError>
    ensures { OnOk result (string_bytes out.new ≡ string_bytes out.old ++ refused_words step why) }
{
    push_step(out, "refused", step)?;
    push_word(out, word_of_refusal(why))
}

/// Appends what became of a packet of a slot.
fn push_slot(out: &mut String, verb: &str, slot: u8) -> Result<(), AllocError>
    ensures { OnOk result (string_bytes out.new ≡ string_bytes out.old ++ slot_words verb.now slot) }
{
    out.push_str(verb)?;
    push_counted(out, "slot", u64::from(slot))
}

/// Appends that a blob of a slot is whole.
fn push_blob(
    alloc: Global,
    out: &mut String,
    slot: u8,
    len: u32,
    crc: u32,
) -> Result<(), AllocError>
    ensures { OnOk result (string_bytes out.new ≡ string_bytes out.old ++ blob_words slot len crc) }
{
    push_slot(out, "blob", slot)?;
    push_counted(out, "len", u64::from(len))?;
    push_word(out, "crc")?;
    push_crc(alloc, out, crc)
}

/// Appends that a piece of a blob was refused on a slot.
fn push_bad_piece(out: &mut String, slot: u8, why: SfpError) -> Result<(), AllocError>
    ensures { OnOk result (string_bytes out.new ≡ string_bytes out.old ++ bad_piece_words slot why) }
{
    push_slot(out, "badblob", slot)?;
    push_word(out, word_of_bad_piece(why))
}

/// Appends a verb and a number.
fn push_numbered(out: &mut String, verb: &str, number: u64) -> Result<(), AllocError>
    ensures { OnOk result (string_bytes out.new ≡ string_bytes out.old ++ number_words verb.now number) }
{
    out.push_str(verb)?;
    push_count(out, number)
}

/// Appends what a party of the node in this place reports.
pub(crate) fn push_event(
    alloc: Global,
    out: &mut String,
    scene: &Scene,
    node: u8,
    event: Event,
) -> Result<(), AllocError>
    ensures { OnOk result (string_bytes out.new ≡ string_bytes out.old ++ event_words scene.now node event) }
{
    match event {
        Event::TookEmpty { step } => push_step(out, "empty", step),
        Event::Sent { slot, .. } => push_slot(out, "sent", slot),
        Event::Took { slot, .. } => push_slot(out, "took", slot),
        Event::BlobTook { slot, len, crc, .. } => push_blob(alloc, out, slot, len, crc),
        Event::BlobRefused { slot, why, .. } => push_bad_piece(out, slot, why),
        Event::Refused { step, why } => push_refused(out, step, why),
        Event::GaveUp { step } => push_step(out, "gaveup", step),
        Event::SlotDown { step } => push_step(out, "slotdown", step),
        Event::Discarded(why) => {
            out.push_str("discards")?;
            push_word(out, word_of(why))
        }
        Event::Handed { nth, cur, una, .. } => push_hands(out, nth, cur, una),
        Event::Opened {
            app,
            slot,
            nth,
            peer,
        } => push_opens(out, scene, (node, app), slot, nth, peer),
        Event::Transmitted { serial } => push_numbered(out, "transmits", serial),
        Event::Bad { count } => push_numbered(out, "bad", u64::from(count)),
        Event::Starved => out.push_str("starved"),
        Event::InboxFull => out.push_str("inboxfull"),
        Event::TooBig => out.push_str("toobig"),
        Event::Reboot => out.push_str("reboot"),
        Event::Shutdown => out.push_str("shutdown"),
    }
}
