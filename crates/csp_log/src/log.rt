//! The log of a party's turns.

ghost use Rattle.std.specs.Prelude.{◌≡◌, ℕ, ◌+◌, ◌-◌, ◌*◌, ◌^◌, ◌<◌, ◌≤◌, [], ◌++◌, ◌∷◌, length, max, nat_lt, slice_get, slice_range, All, Some, false, ◌&&◌, IfOk, OnOk, OnErr, vec_len, vec_capacity};
ghost use Rattle.std.specs.Option.{option_map};
ghost use Rattle.csp_buffer.specs.Trails.{trace_of};
ghost use Rattle.csp_log.specs.Framing.{framed_in, marked_in};
ghost use Rattle.csp_log.specs.Headers.{MoveWords};
ghost use Rattle.csp_log.specs.Idling.{IsIdle, is_idle};
ghost use Rattle.csp_log.specs.Layout.{IsRoomier, HasTaken};
ghost use Rattle.csp_log.specs.Moving.{moved_in};
ghost use Rattle.csp_log.specs.Noting.{noted_in};
ghost use Rattle.csp_log.specs.PlainDraft.{drafted};
ghost use Rattle.csp_log.specs.PlainLog.{with_entry, entry_with, all_events};
ghost use Rattle.csp_log.specs.Rows.{draft_of, spoken_of, IsDeedLong, IsDeedWord, IsHeadWord, IsKeptIn, Says};
ghost use Rattle.csp_log.specs.Weights.{weight_of_all};

use crate::deeds::{entry_of, events_at, framed_of, idle, keep, make_room, moved_of};
use crate::draft::Draft;
use crate::framed::read_mark;
use crate::noted::{is_still, read_noted};
use crate::row::{Deed, ItemHead, Line, LogRow, PacketHead};
use crate::rows::Rows;
use crate::weights::surplus;
use crate::{
    AnswerShown, Entry, Event, Events, Framed, MAX_EVENTS, MAX_WEIGHT, Moved, Noted, OpShown,
    QueueId,
};
use csp_base::{MAX_FRAME, Trace};
use csp_buffer::Trail;
use std::alloc::{AllocError, Global};
use std::marker::Model;

/// For how many lines and bytes a log takes room at least, where it takes any: so many at a time that it is
/// seldom moved.
const FEWEST_LINES: usize = 32_768;

const FEWEST_BYTES: usize = 262_144;

/// The turns of a party, the oldest first. Contracts see it as a list of entries and a number, for
/// how many more there is room.
///
/// Only `reserve` takes memory. Inside, an entry is a line of 8 bytes; one that carried or reported
/// something has besides a row of 56 bytes, or of 88 more where its numbers are large, which points into
/// one list of bytes, for payloads and frames, and one list of events. Rows that carried the same one
/// after the other share their bytes.
#[derive(Drop)]
pub struct Log {
    lines: Vec<Line>,
    rows: Rows,
    bytes: Vec<u8>,
    events: Vec<Event>,
    spare: u32,
    surplus: u64,
}

impl Model for Log {
    ghost use Rattle.std.specs.Prelude.{map};
    ghost use Rattle.csp_log.specs.PlainLog.{PlainLog};

    ghost Value = { PlainLog };

    ghost use Rattle.csp_log.specs.Rows.{entry_at};
    ghost use Rattle.csp_log.specs.Layout.{IsLaidOut};

    ghost view = { λ l. record { entries = map (entry_at l.rows.rows l.bytes.items l.events.items) l.lines.items; spare = l.spare } };

    ghost invariant = { IsLaidOut };
}

impl Log {
    /// A log without an entry and without room. It takes no memory.
    pub fn new(alloc: Global) -> Log
        ensures { result ≡ record { entries = []; spare = 0 } }
    {
        Log {
            lines: Vec::new(alloc),
            rows: Rows::new(alloc),
            bytes: Vec::new(alloc),
            events: Vec::new(alloc),
            spare: 0,
            surplus: 0,
        }
    }

    /// The number of entries.
    pub fn len(&self) -> u64
        ensures value { result ≡ length self.now.entries }
        ensures few { length self.now.entries + self.now.spare ≤ 2 ^ 32 - 2 }

        // The header of each packet that a turn moved is a word of 32 bits, as the field is of which it is read.
        ensures words { MoveWords self.now.entries }
    {
        self.lines.len() as u64
    }

    /// What the entries weigh together: each one, and one more for each `WEIGHT_BYTES` bytes of payloads and
    /// frames that its operation and its answer show. It is kept as a number, and no entry is looked at.
    pub fn weight(&self) -> u64
        ensures value { result ≡ weight_of_all self.now.entries }
        ensures least { length self.now.entries ≤ result }
        ensures most { result ≤ MAX_WEIGHT * length self.now.entries }
        ensures few { result < 2 ^ 35 }
    {
        self.lines.len() as u64 + self.surplus
    }

    /// For how many more entries there is room.
    pub fn spare(&self) -> u32
        ensures { result ≡ self.now.spare }
    {
        self.spare
    }

    /// Takes room, so that there is some for at least `entries` more. A refusal changes nothing.
    pub fn reserve(&mut self, entries: u32) -> Result<(), AllocError>
        requires { length self.old.entries + entries ≤ 2 ^ 32 - 2 }
        ensures ok { OnOk result (self.new ≡ record self.old { spare = max self.old.spare entries }) }
        ensures err { OnErr result (self.new ≡ self.old) }
    {
        if entries <= self.spare {
            return Ok(());
        }
        self.spare = take_room(
            &mut self.lines,
            &mut self.rows,
            &mut self.bytes,
            &mut self.events,
            entries,
        )?;
        Ok(())
    }

    /// The entry of this index, counted from 0, just as it was logged.
    pub fn entry(&self, index: u64) -> Entry
        requires { index < length self.now.entries }
        ensures { slice_get self.now.entries index ≡ Some result }
    {
        match self.lines[index as usize] {
            Line::Rested { time } => idle(time, OpShown::Nothing, AnswerShown::Nothing),
            Line::FoundNoBuffer { time } => idle(time, OpShown::Take, AnswerShown::NoBuffer),
            Line::FoundEmpty { queue, time } => {
                idle(time, OpShown::Pop(queue), AnswerShown::Empty)
            }
            Line::Kept { row } => {
                let row = self.rows.row(row as usize);
                entry_of(self.bytes.as_slice(), self.events.as_slice(), &row)
            }
        }
    }

    /// At which time the turn of this entry was, counted from 0.
    pub fn time(&self, index: u64) -> u64
        requires { index < length self.now.entries }
        ensures { option_map (λ e. e.time) (slice_get self.now.entries index) ≡ Some result }
    {
        match self.lines[index as usize] {
            Line::Kept { row } => self.rows.row(row as usize).time,
            Line::Rested { time } => u64::from(time),
            Line::FoundNoBuffer { time } => u64::from(time),
            Line::FoundEmpty { time, .. } => u64::from(time),
        }
    }

    /// What was reported in the entry of this index, counted from 0.
    pub fn events(&self, index: u64) -> &[Event]
        requires { index < length self.now.entries }
        ensures { option_map (λ e. e.events.items) (slice_get self.now.entries index) ≡ Some result.now }
    {
        match self.lines[index as usize] {
            Line::Kept { row } => events_at(&self.events, &self.rows.row(row as usize)),
            Line::Rested { .. } | Line::FoundNoBuffer { .. } | Line::FoundEmpty { .. } => &[],
        }
    }

    /// What was reported in all entries, in their order.
    pub fn all_events(&self) -> &[Event]
        ensures { result.now ≡ all_events self.now.entries }
    {
        self.events.as_slice()
    }

    /// The packet that the turn of this entry moved, counted from 0.
    pub fn moved(&self, index: u64) -> Moved<'_>
        requires { index < length self.now.entries }
        ensures { option_map moved_in (slice_get self.now.entries index) ≡ Some result }
    {
        match self.lines[index as usize] {
            Line::Kept { row } => moved_of(&self.bytes, &self.rows.row(row as usize)),
            Line::Rested { .. } | Line::FoundNoBuffer { .. } | Line::FoundEmpty { .. } => {
                Moved::NoPacket
            }
        }
    }

    /// The mark of the packet that the turn of this entry moved, counted from 0.
    pub fn mark(&self, index: u64) -> Option<u8>
        requires { index < length self.now.entries }
        ensures { option_map marked_in (slice_get self.now.entries index) ≡ Some result }
    {
        match self.lines[index as usize] {
            Line::Kept { row } => read_mark(&self.rows.row(row as usize).deed),
            Line::Rested { .. } | Line::FoundNoBuffer { .. } | Line::FoundEmpty { .. } => None,
        }
    }

    /// The frame that the turn of this entry moved, counted from 0.
    pub fn framed(&self, index: u64) -> Framed
        requires { index < length self.now.entries }
        ensures { option_map framed_in (slice_get self.now.entries index) ≡ Some result }
    {
        match self.lines[index as usize] {
            Line::Kept { row } => framed_of(&self.bytes, &self.rows.row(row as usize)),
            Line::Rested { .. } | Line::FoundNoBuffer { .. } | Line::FoundEmpty { .. } => {
                Framed::NoFrame
            }
        }
    }

    /// The note that the turn of this entry moved, counted from 0.
    pub fn noted(&self, index: u64) -> Noted
        requires { index < length self.now.entries }
        ensures { option_map noted_in (slice_get self.now.entries index) ≡ Some result }
    {
        match self.lines[index as usize] {
            Line::Kept { row } => read_noted(&self.rows.row(row as usize).deed),
            Line::Rested { .. } | Line::FoundNoBuffer { .. } | Line::FoundEmpty { .. } => {
                Noted::NoNote
            }
        }
    }

    /// The index of the first entry, from this one on, whose turn moved or reported something; the number
    /// of entries where there is none.
    pub fn next_deed(&self, from: u64) -> u64
        requires { from ≤ length self.now.entries }
        ensures range { (from ≤ result) × (result ≤ length self.now.entries) }
        ensures idle { All IsIdle (slice_range self.now.entries from result) }
        ensures first { result < length self.now.entries → option_map is_idle (slice_get self.now.entries result) ≡ Some false }
    {
        let mut at = from;
        while at < self.len() && self.is_idle(at) {
            at += 1;
        }
        at
    }

    /// Whether the turn of this entry, counted from 0, moved nothing and reported nothing.
    #[inline(always)]
    fn is_idle(&self, index: u64) -> bool
        requires { index < length self.now.entries }
        ensures { option_map is_idle (slice_get self.now.entries index) ≡ Some result }
    {
        match self.lines[index as usize] {
            Line::Kept { row } => {
                let row = self.rows.row(row as usize);
                row.events == 0 && is_still(&row.deed)
            }
            Line::Rested { .. } => true,
            Line::FoundNoBuffer { .. } => true,
            Line::FoundEmpty { .. } => true,
        }
    }

    /// Appends the entry of a turn at this time: what was asked and answered, and what was told. It
    /// takes no memory.
    #[inline(always)]
    pub fn append(&mut self, time: u64, draft: &Draft, told: &Events)
        requires room { 0 < self.old.spare }
        ensures { self.new ≡ with_entry self.old (entry_with time draft.now told.now.items) }
    {
        self.add(
            time,
            &draft.deed,
            &draft.trail,
            draft.bytes.as_slice(),
            told.as_slice(),
        );
    }

    /// Appends the entry of a turn at this time that looked into a queue, which was empty, and told
    /// nothing. It takes no memory.
    pub fn append_empty(&mut self, time: u64, queue: QueueId)
        requires room { 0 < self.old.spare }
        ensures { self.new ≡ with_entry self.old (entry_with time (drafted (OpShown.Pop queue)) []) }
    {
        match u32::try_from(time) {
            Ok(time) => self.add_empty(time, queue),
            Err(_) => {
                let trail = Trail::of(Trace::empty());
                self.add(time, &Deed::FoundEmpty(queue), &trail, &[], &[]);
            }
        }
    }

    /// The same, at a time that a line can say.
    fn add_empty(&mut self, time: u32, queue: QueueId)
        requires room { 0 < self.old.spare }
        ensures { self.new ≡ with_entry self.old (entry_with time (drafted (OpShown.Pop queue)) []) }
    {
        let Log { lines, spare, .. } = self;
        lines.push_reserved(Line::FoundEmpty { queue, time });
        *spare -= 1;
    }

    /// Appends the entry of a turn at this time, of a deed with its trail and its bytes, and what was told.
    #[inline(always)]
    fn add(&mut self, time: u64, deed: &Deed, trail: &Trail, carried: &[u8], told: &[Event])
        requires room { 0 < self.old.spare }
        requires fits { IsDeedLong (length carried.now) deed.now }
        requires short { length carried.now ≤ MAX_FRAME }
        requires told { length told.now ≤ MAX_EVENTS }
        ensures { self.new ≡ with_entry self.old (entry_with time (draft_of carried.now (trace_of trail.now) deed.now) told.now) }
    {
        let surplus = surplus(deed, carried.len());
        let line = say(
            &mut self.rows,
            &mut self.bytes,
            &mut self.events,
            time,
            deed,
            trail,
            carried,
            told,
        );
        self.lines.push_reserved(line);
        self.surplus += surplus;
        self.spare -= 1;
    }
}

/// Takes room for what so many entries more may need, and tells for how many. A refusal changes nothing else.
fn take_room(
    lines: &mut Vec<Line>,
    rows: &mut Rows,
    bytes: &mut Vec<u8>,
    events: &mut Vec<Event>,
    entries: u32,
) -> Result<u32, AllocError>
    ensures told { IfOk result (λ room. room ≡ entries) }
    ensures lines { IsRoomier lines.old lines.new }
    ensures lines_room { OnOk result (HasTaken lines.old lines.new entries 32768) }
    ensures rows { (rows.new.rows ≡ rows.old.rows) × (rows.old.room ≤ rows.new.room) }
    ensures rows_room { OnOk result (rows.new.room ≡ max rows.old.room entries) }
    ensures bytes { IsRoomier bytes.old bytes.new }
    ensures bytes_room { OnOk result (HasTaken bytes.old bytes.new (entries * MAX_FRAME) 262144) }
    ensures events { IsRoomier events.old events.new }
    ensures events_room { OnOk result (HasTaken events.old events.new (entries * MAX_EVENTS) 0) }
{
    let room = entries as usize;
    make_room(lines, room, FEWEST_LINES)?;
    rows.reserve(room)?;
    make_room(bytes, room * MAX_FRAME, FEWEST_BYTES)?;
    make_room(events, room * MAX_EVENTS, 0)?;
    Ok(entries)
}

/// The line of a turn at this time, with this deed and its bytes. It keeps a row of what a line can't say.
#[inline(always)]
fn say(
    rows: &mut Rows,
    bytes: &mut Vec<u8>,
    events: &mut Vec<Event>,
    time: u64,
    deed: &Deed,
    trail: &Trail,
    carried: &[u8],
    told: &[Event],
) -> Line
    requires few { length rows.old.rows < 2 ^ 32 }
    requires row_room { 0 < rows.old.room }
    requires byte_room { vec_len bytes.old + MAX_FRAME ≤ vec_capacity bytes.old }
    requires event_room { vec_len events.old + MAX_EVENTS ≤ vec_capacity events.old }
    requires fits { IsDeedLong (length carried.now) deed.now }
    requires short { length carried.now ≤ MAX_FRAME }
    requires told { length told.now ≤ MAX_EVENTS }
    ensures says { Says rows.old.rows bytes.old.items events.old.items time carried.now (draft_of carried.now (trace_of trail.now) deed.now) told.now result rows.new.rows bytes.new.items events.new.items }
    ensures rows_room { rows.old.room ≤ rows.new.room + 1 }
    ensures bytes_capacity { (vec_capacity bytes.old ≤ vec_capacity bytes.new) × (vec_len bytes.new ≤ vec_len bytes.old + MAX_FRAME) }
    ensures events_capacity { (vec_capacity events.old ≤ vec_capacity events.new) × (vec_len events.new ≤ vec_len events.old + MAX_EVENTS) }
{
    match spoken(deed, time, told.is_empty()) {
        Some(line) => line,
        None => keep_row(rows, bytes, events, time, deed, trail, carried, told),
    }
}

/// What a line says of a deed by itself, where nothing was told besides.
#[inline(always)]
fn spoken(deed: &Deed, time: u64, quiet: bool) -> Option<Line>
    ensures { result ≡ spoken_of (quiet && nat_lt time (2 ^ 32)) time deed.now }
{
    if !quiet || time > u64::from(u32::MAX) {
        return None;
    }
    let time = time as u32;
    match deed {
        Deed::Rested => Some(Line::Rested { time }),
        Deed::FoundNoBuffer => Some(Line::FoundNoBuffer { time }),
        Deed::FoundEmpty(queue) => Some(Line::FoundEmpty {
            queue: *queue,
            time,
        }),
        Deed::Took(_)
        | Deed::Gave(_)
        | Deed::FoundPoolFull(_)
        | Deed::Pushed(_, _)
        | Deed::FoundFull(_, _)
        | Deed::Popped(_, _) => None,
    }
}

/// Keeps what a turn carried and what it told, and gives the line with the place of its row.
#[inline(always)]
fn keep_row(
    rows: &mut Rows,
    bytes: &mut Vec<u8>,
    events: &mut Vec<Event>,
    time: u64,
    deed: &Deed,
    trail: &Trail,
    carried: &[u8],
    told: &[Event],
) -> Line
    requires few { length rows.old.rows < 2 ^ 32 }
    requires row_room { 0 < rows.old.room }
    requires byte_room { vec_len bytes.old + MAX_FRAME ≤ vec_capacity bytes.old }
    requires event_room { vec_len events.old + MAX_EVENTS ≤ vec_capacity events.old }
    requires fits { IsDeedLong (length carried.now) deed.now }
    requires short { length carried.now ≤ MAX_FRAME }
    requires told { length told.now ≤ MAX_EVENTS }
    ensures says { Says rows.old.rows bytes.old.items events.old.items time carried.now (draft_of carried.now (trace_of trail.now) deed.now) told.now result rows.new.rows bytes.new.items events.new.items }
    ensures rows_room { rows.old.room ≤ rows.new.room + 1 }
    ensures bytes_capacity { (vec_capacity bytes.old ≤ vec_capacity bytes.new) × (vec_len bytes.new ≤ vec_len bytes.old + MAX_FRAME) }
    ensures events_capacity { (vec_capacity events.old ≤ vec_capacity events.new) × (vec_len events.new ≤ vec_len events.old + MAX_EVENTS) }
{
    hold_word(deed);
    let row = rows.len() as u32;
    let first_byte = keep_once(bytes, carried);
    let first_event = keep(events, told);
    rows.push(&LogRow {
        time,
        first_byte,
        first_event,
        bytes: carried.len() as u16,
        events: told.len() as u8,
        deed: *deed,
        trail: *trail,
    });
    Line::Kept { row }
}

/// The header of a deed's packet, where there is one, is a word of 32 bits.
#[inline(always)]
fn hold_word(deed: &Deed)
    ensures { IsDeedWord deed.now }
{
    match deed {
        Deed::Took(packet) | Deed::Gave(packet) | Deed::FoundPoolFull(packet) => {
            hold_head_word(packet)
        }
        Deed::Pushed(_, ItemHead::Packet { packet, .. })
        | Deed::FoundFull(_, ItemHead::Packet { packet, .. })
        | Deed::Popped(_, ItemHead::Packet { packet, .. }) => hold_head_word(packet),
        _ => {}
    }
}

/// So is that of a packet: it is read for the checker alone.
#[inline(always)]
fn hold_head_word(packet: &PacketHead)
    ensures { IsHeadWord packet.now }
{
    let _header = packet.header;
}

/// Sees to it that a list has these bytes, for which there is room, and tells where they begin. Where they stand at its
/// end already they are not kept twice: what comes to a party it mostly hands on.
fn keep_once(bytes: &mut Vec<u8>, carried: &[u8]) -> usize
    requires { vec_len bytes.old + length carried.now ≤ vec_capacity bytes.old }
    ensures kept { IsKeptIn bytes.old.items bytes.new.items carried.now result }
    ensures len { vec_len bytes.new ≤ vec_len bytes.old + length carried.now }
    ensures capacity { vec_capacity bytes.old ≤ vec_capacity bytes.new }
{
    if bytes.as_slice().ends_with(carried) {
        bytes.len() - carried.len()
    } else {
        keep(bytes, carried)
    }
}
