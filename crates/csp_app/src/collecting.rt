//! The packets of a slot that collects, made into blobs.

ghost use Rattle.std.specs.Prelude.{◌≡◌, ◌<◌, Some, None, IfOk, length};
ghost use Rattle.std.specs.Option.{option_to_list};
ghost use Rattle.csp_crc.specs.Crc.{crc_of};
ghost use Rattle.csp_app.specs.Collecting.{answer_of, blobs_told, collector_at, collector_for, collectors_for, counts, after_note, fed_on, piece_told};
ghost use Rattle.csp_deck.specs.Carried.{IsDownItem};
ghost use Rattle.csp_sfp.specs.Gathering.{after, answer};

use crate::script::Script;
use csp_base::SLOTS;
use csp_crc::crc32c;
use csp_log::{Event, ItemShown, Note};
use csp_sfp::{Collector, SfpAnswer};
use std::alloc::{AllocError, Global};

/// The collectors of an application, by its slots: one for each slot that its script collects on.
pub type Collectors = [Option<Collector>; SLOTS];

/// The collectors for an application with this script, each as it opens.
///
/// # Errors
/// Want of memory.
pub fn open_collectors(alloc: Global, script: &Script) -> Result<Collectors, AllocError>
    ensures { IfOk result (λ collectors. collectors ≡ collectors_for script.now) }
{
    Ok([
        open_collector(alloc, script, 0)?,
        open_collector(alloc, script, 1)?,
        open_collector(alloc, script, 2)?,
        open_collector(alloc, script, 3)?,
    ])
}

/// The collector of this slot, if the script collects on it.
fn open_collector(alloc: Global, script: &Script, slot: u8) -> Result<Option<Collector>, AllocError>
    ensures { IfOk result (λ collector. collector ≡ collector_for script.now slot) }
{
    if script.collects_on(slot) {
        Ok(Some(Collector::open(alloc)?))
    } else {
        Ok(None)
    }
}

/// What a packet that was taken is to its slot: how many things to be waited for, and what is reported of it besides.
#[derive(Clone, Copy)]
pub(crate) struct Piece {
    pub count: u32,
    pub event: Option<Event>,
}

/// A packet was taken on this slot: its payload goes to the slot's collector, if the slot has one.
#[tactic(auto, using(crate::proofs::Collectors::fed_none, crate::proofs::Collectors::fed_some))]
pub(crate) fn note_piece(
    collectors: &mut [Option<Collector>],
    slot: u8,
    ordinal: u32,
    payload: &[u8],
) -> Piece
    requires slot { slot < length collectors.old }
    ensures count { result.count ≡ counts (answer_of (collector_at collectors.old slot) payload.now) }
    ensures event { option_to_list result.event ≡ blobs_told slot ordinal (collector_at collectors.old slot) payload.now }
    ensures collectors { collectors.new ≡ fed_on slot payload.now collectors.old }
{
    match &mut collectors[slot as usize] {
        Some(collector) => gather(collector, slot, ordinal, payload),
        None => Piece {
            count: 1,
            event: None,
        },
    }
}

/// A collector takes a piece.
fn gather(collector: &mut Collector, slot: u8, ordinal: u32, payload: &[u8]) -> Piece
    ensures count { result.count ≡ counts (Some (answer collector.old payload.now)) }
    ensures event { option_to_list result.event ≡ piece_told slot ordinal (answer collector.old payload.now) (after collector.old payload.now) }
    ensures collector { collector.new ≡ after collector.old payload.now }
{
    match collector.piece(payload) {
        Ok(SfpAnswer::Part) => Piece {
            count: 0,
            event: None,
        },
        Ok(SfpAnswer::Whole) => Piece {
            count: 1,
            event: Some(whole(collector, slot, ordinal)),
        },
        Err(why) => Piece {
            count: 0,
            event: Some(Event::BlobRefused { slot, ordinal, why }),
        },
    }
}

/// The report of a blob that is whole.
fn whole(collector: &Collector, slot: u8, ordinal: u32) -> Event
    ensures { result ≡ Event.BlobTook slot ordinal (length collector.now.bytes) (crc_of collector.now.bytes) }
{
    let blob = collector.blob();
    Event::BlobTook {
        slot,
        ordinal,
        len: blob.len() as u32,
        crc: crc32c(blob),
    }
}

/// A note was popped: with the end of a connection its slot's collector forgets what it gathered.
#[tactic(auto, using(crate::proofs::Collectors::reset_none, crate::proofs::Collectors::reset_some))]
pub(crate) fn note_end(collectors: &mut [Option<Collector>], note: &Note)
    requires slots { length collectors.old ≡ SLOTS }
    requires item { IsDownItem (ItemShown.Note note.now) }
    ensures { collectors.new ≡ after_note note.now collectors.old }
{
    let Note::Closed { slot } = note else {
        return;
    };
    if let Some(collector) = &mut collectors[*slot as usize] {
        collector.reset();
    }
}
