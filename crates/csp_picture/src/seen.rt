//! What a picture shows of what happened, and what is known when it comes to each thing.

ghost use Rattle.std.specs.Prelude.{◌≡◌, OnOk};
ghost use Rattle.csp_picture.specs.Seen.{opens, closes, is_drawn, is_in, is_shown, nothing_seen, sent_by, start_of, with_sent, with_start, noted, one_row_more, after};

use crate::colours::{Colour, is_harmed};
use csp_base::Origin;
use csp_happenings::{Fate, Happening, Parcel, What};
use csp_record::Who;
use std::alloc::{AllocError, Global};
use std::collections::BTreeMap;
use std::marker::Model;

/// A window of rounds: from the one to the other, both included.
#[derive(Clone, Copy)]
pub struct Window {
    /// The first round.
    pub from: u64,
    /// The last round.
    pub to: u64,
}

/// What an interface transmitted: its packet, where that is known, and whether it was again.
#[derive(Clone, Copy)]
pub(crate) struct Sent {
    pub packet: Option<Parcel>,
    pub again: bool,
}

/// Where a link took the frame that opens a transmission: in which row, and the colour of its fate.
#[derive(Clone, Copy)]
pub(crate) struct Start {
    pub row: u32,
    pub colour: Colour,
}

/// Transmissions are looked up by node, interface and serial.
type Key = (u8, u8, u64);

/// What is known when the picture comes to something that happened.
#[derive(Drop)]
pub(crate) struct Seen {
    rows: u32,
    last: Option<u64>,
    sent: BTreeMap<Key, Sent>,
    starts: BTreeMap<Key, Start>,
}

impl Model for Seen {
    ghost use Rattle.csp_picture.specs.Seen.{PlainSeen};

    ghost Value = { PlainSeen };

    ghost view = { λ s. record { rows = s.rows; last = s.last; sent = s.sent.entries; starts = s.starts.entries } };
}

/// Whether a frame with this identifier opens a packet.
pub(crate) fn opens(can: Option<u32>) -> bool
    ensures { result ≡ opens can }
{
    match can {
        None => true,
        Some(id) => (id >> 18) % 2 == 0,
    }
}

/// Whether a frame with this identifier closes a packet.
fn closes(can: Option<u32>) -> bool
    ensures { result ≡ closes can }
{
    match can {
        None => true,
        Some(id) => (id >> 10) % 256 == 0,
    }
}

/// Whether what happened may be shown.
fn is_drawn(what: &What) -> bool
    ensures { result ≡ is_drawn what.now }
{
    match what {
        What::Carried { fate, frame, .. } => opens(frame.can) || is_harmed(fate),
        What::HandedOn { frame, .. } => closes(frame.can),
        _ => false,
    }
}

/// Whether a round is in the window. Without one each is.
fn is_in(window: Option<Window>, round: u64) -> bool
    ensures { result ≡ is_in window round }
{
    match window {
        None => true,
        Some(window) => window.from <= round && round <= window.to,
    }
}

/// Whether what happened is shown.
pub(crate) fn is_shown(window: Option<Window>, happening: &Happening) -> bool
    ensures { result ≡ is_shown window happening.now }
{
    is_in(window, happening.time) && is_drawn(&happening.what)
}

impl Seen {
    /// Nothing yet.
    pub(crate) fn new(alloc: Global) -> Seen
        ensures { result ≡ nothing_seen }
    {
        Seen {
            rows: 0,
            last: None,
            sent: BTreeMap::new(alloc),
            starts: BTreeMap::new(alloc),
        }
    }

    /// How many rows there are.
    pub(crate) fn rows(&self) -> u32
        ensures { result ≡ self.now.rows }
    {
        self.rows
    }

    /// The round of the last row.
    pub(crate) fn last(&self) -> Option<u64>
        ensures { result ≡ self.now.last }
    {
        self.last
    }

    /// What was transmitted, by the origin of a frame.
    pub(crate) fn sent_by(&self, origin: Option<Origin>) -> Option<Sent>
        ensures { result ≡ sent_by self.now origin }
    {
        let Some(origin) = origin else {
            return None;
        };
        match self.sent.get(&(origin.node, origin.iface, origin.serial)) {
            Some(sent) => Some(*sent),
            None => None,
        }
    }

    /// Where a link took it.
    pub(crate) fn start_of(&self, origin: Option<Origin>) -> Option<Start>
        ensures { result ≡ start_of self.now origin }
    {
        let Some(origin) = origin else {
            return None;
        };
        match self.starts.get(&(origin.node, origin.iface, origin.serial)) {
            Some(start) => Some(*start),
            None => None,
        }
    }

    /// An interface began the transmission of this serial.
    fn note_sent(&mut self, who: Who, serial: u64, sent: Sent) -> Result<(), AllocError>
        ensures { OnOk result (self.new ≡ with_sent who serial sent self.old) }
    {
        match who {
            Who::Iface(node, iface) => {
                self.sent.insert((node, iface, serial), sent)?;
                Ok(())
            }
            Who::Router(_) | Who::Bridge(_) | Who::App(_, _) | Who::Link(_) => Ok(()),
        }
    }

    /// A link took a frame, which opens the packet or not.
    fn note_start(
        &mut self,
        opening: bool,
        origin: Option<Origin>,
        fate: &Fate,
    ) -> Result<(), AllocError>
        ensures { OnOk result (self.new ≡ with_start opening origin fate.now self.old) }
    {
        match origin {
            Some(origin) if opening => {
                let start = Start {
                    row: self.rows,
                    colour: Colour::of(fate),
                };
                self.starts
                    .insert((origin.node, origin.iface, origin.serial), start)?;
                Ok(())
            }
            _ => Ok(()),
        }
    }

    /// Notes of what happened what later rows tell.
    fn note(&mut self, shown: bool, happening: &Happening) -> Result<(), AllocError>
        ensures { OnOk result (self.new ≡ noted shown happening.now happening.now.what self.old) }
    {
        match &happening.what {
            What::Transmitted {
                serial,
                again,
                packet,
            } => {
                let sent = Sent {
                    packet: *packet,
                    again: *again,
                };
                self.note_sent(happening.who, *serial, sent)
            }
            What::Carried { fate, frame, .. } => {
                self.note_start(shown && opens(frame.can), frame.trace.origin, fate)
            }
            _ => Ok(()),
        }
    }

    /// A row more, where it is shown. Memory is wanting where the rows are more than 32 bits count.
    fn count(&mut self, shown: bool, round: u64) -> Result<(), AllocError>
        ensures { OnOk result (self.new ≡ one_row_more shown round self.old) }
    {
        if !shown {
            return Ok(());
        }
        let Some(rows) = self.rows.checked_add(1) else {
            return Err(AllocError);
        };
        self.rows = rows;
        self.last = Some(round);
        Ok(())
    }

    /// What is known after this happened.
    pub(crate) fn pass(
        &mut self,
        window: Option<Window>,
        happening: &Happening,
    ) -> Result<(), AllocError>
        ensures { OnOk result (self.new ≡ after window self.old happening.now) }
    {
        let shown = is_shown(window, happening);
        self.note(shown, happening)?;
        self.count(shown, happening.time)
    }
}
