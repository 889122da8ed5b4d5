//! The rows of a log.

ghost use Rattle.std.specs.Prelude.{◌≡◌, ◌+◌, ◌<◌, ◌≤◌, [], ◌∷◌, ◌++◌, length, slice_get, max, true, Some, IfOk, IfSome, OnOk, OnErr, vec_len, vec_capacity};
ghost use Rattle.std.specs.Option.{is_some};
ghost use Rattle.csp_buffer.specs.Trails.{full_of};
ghost use Rattle.csp_log.specs.Layout.{IsRoomier, HasTaken};
ghost use Rattle.csp_log.specs.KeptRows.{row_of, brief_row, is_brief_row, IsKeptRowIn, IsRowKept};

use crate::deeds::make_room;
use crate::row::{KeptRow, LogRow};
use csp_buffer::BriefTrail;
use std::alloc::{AllocError, Global};
use std::marker::Model;

/// For how many rows it takes room at least, where it takes any, and for how many of large numbers.
const FEWEST_ROWS: usize = 8_192;

const FEWEST_WIDE: usize = 8;

/// The rows of a log, the oldest first. Contracts see them as a list of rows and a number, for how many
/// more there is room.
///
/// Only `reserve` takes memory. Almost all rows hold small numbers alone, and are kept in 56 bytes.
#[derive(Drop)]
pub struct Rows {
    kept_rows: Vec<KeptRow>,
    wides: Vec<LogRow>,
    room: usize,
}

impl Model for Rows {
    ghost use Rattle.std.specs.Prelude.{map};
    ghost use Rattle.csp_log.specs.KeptRows.{PlainRows, row_of, IsKept};

    ghost Value = { PlainRows };

    ghost view = { λ r. record { rows = map (row_of r.wides.items) r.kept_rows.items; room = r.room } };

    ghost invariant = { IsKept };
}

impl Rows {
    /// No rows, and room for none.
    pub fn new(alloc: Global) -> Rows
        ensures { result ≡ record { rows = []; room = 0 } }
    {
        Rows {
            kept_rows: Vec::new(alloc),
            wides: Vec::new(alloc),
            room: 0,
        }
    }

    /// The number of rows.
    #[inline(always)]
    pub fn len(&self) -> usize
        ensures { result ≡ length self.now.rows }
    {
        self.kept_rows.len()
    }

    /// Takes room, so that there is some for at least `room` rows more. A refusal changes nothing.
    pub fn reserve(&mut self, room: usize) -> Result<(), AllocError>
        ensures rows { self.new.rows ≡ self.old.rows }
        ensures room { OnOk result (self.new.room ≡ max self.old.room room) }
        ensures err { OnErr result (self.new ≡ self.old) }
    {
        if room <= self.room {
            return Ok(());
        }
        self.room = take_room(&mut self.kept_rows, &mut self.wides, room)?;
        Ok(())
    }

    /// Appends a row. It takes no memory.
    #[inline(always)]
    pub fn push(&mut self, row: &LogRow)
        requires { 0 < self.old.room }
        ensures rows { self.new.rows ≡ self.old.rows ++ row.now ∷ [] }
        ensures room { self.old.room ≡ self.new.room + 1 }
    {
        keep_row(&mut self.kept_rows, &mut self.wides, row);
        self.room -= 1;
    }

    /// The row of this index, counted from 0.
    #[inline(always)]
    pub fn row(&self, index: usize) -> LogRow
        requires { index < length self.now.rows }
        ensures { slice_get self.now.rows index ≡ Some result }
    {
        full(self.wides.as_slice(), &self.kept_rows[index])
    }
}

/// Takes room for so many rows more, whatever their numbers, and tells for how many. A refusal changes nothing else.
fn take_room(
    kept_rows: &mut Vec<KeptRow>,
    wides: &mut Vec<LogRow>,
    rows: usize,
) -> Result<usize, AllocError>
    ensures told { IfOk result (λ room. room ≡ rows) }
    ensures kept_rows { IsRoomier kept_rows.old kept_rows.new }
    ensures kept_rows_room { OnOk result (HasTaken kept_rows.old kept_rows.new rows 8192) }
    ensures wides { IsRoomier wides.old wides.new }
    ensures wides_room { OnOk result (HasTaken wides.old wides.new rows 8) }
{
    make_room(kept_rows, rows, FEWEST_ROWS)?;
    make_room(wides, rows, FEWEST_WIDE)?;
    Ok(rows)
}

/// Keeps a row: by itself, or at the end of these where one of its numbers is of more than 32 bits.
#[inline(always)]
fn keep_row(kept_rows: &mut Vec<KeptRow>, wides: &mut Vec<LogRow>, row: &LogRow)
    requires kept_room { vec_len kept_rows.old < vec_capacity kept_rows.old }
    requires wide_room { vec_len wides.old < vec_capacity wides.old }
    ensures kept { IsRowKept kept_rows.old.items wides.old.items row.now kept_rows.new.items wides.new.items }
    ensures kept_rows_room { (vec_capacity kept_rows.old ≤ vec_capacity kept_rows.new) × (vec_len kept_rows.new ≡ vec_len kept_rows.old + 1) }
    ensures wides_room { (vec_capacity wides.old ≤ vec_capacity wides.new) × (vec_len wides.new ≤ vec_len wides.old + 1) }
{
    match brief(row) {
        Some(trail) => keep_brief(kept_rows, row, &trail),
        None => keep_wide(kept_rows, wides, row),
    }
}

/// The trail of a row in fewer bytes; `None` where one of the row's numbers is of more than 32 bits.
#[inline(always)]
fn brief(row: &LogRow) -> Option<BriefTrail>
    ensures same { IfSome result (λ trail. full_of trail ≡ row.now.trail) }
    ensures small { is_some result ≡ is_brief_row row.now }
{
    let most = u32::MAX as usize;
    if row.time > u64::from(u32::MAX) || row.first_byte > most || row.first_event > most {
        return None;
    }
    row.trail.brief()
}

/// Keeps a row whose numbers are of 32 bits, and whose trail is this one.
#[inline(always)]
fn keep_brief(kept_rows: &mut Vec<KeptRow>, row: &LogRow, trail: &BriefTrail)
    requires room { vec_len kept_rows.old < vec_capacity kept_rows.old }
    requires small { is_brief_row row.now ≡ true }
    requires same { full_of trail.now ≡ row.now.trail }
    ensures items { kept_rows.new.items ≡ kept_rows.old.items ++ brief_row row.now trail.now ∷ [] }
    ensures capacity { vec_capacity kept_rows.old ≤ vec_capacity kept_rows.new }
    ensures len { vec_len kept_rows.new ≡ vec_len kept_rows.old + 1 }
{
    kept_rows.push_reserved(KeptRow::Brief {
        events: row.events,
        bytes: row.bytes,
        time: row.time as u32,
        first_byte: row.first_byte as u32,
        first_event: row.first_event as u32,
        deed: row.deed,
        trail: *trail,
    });
}

/// Keeps a row at the end of these others, and its place.
#[inline(always)]
fn keep_wide(kept_rows: &mut Vec<KeptRow>, wides: &mut Vec<LogRow>, row: &LogRow)
    requires kept_room { vec_len kept_rows.old < vec_capacity kept_rows.old }
    requires wide_room { vec_len wides.old < vec_capacity wides.old }
    ensures kept_rows { kept_rows.new.items ≡ kept_rows.old.items ++ KeptRow.Wide (length wides.old.items) ∷ [] }
    ensures wides { wides.new.items ≡ wides.old.items ++ row.now ∷ [] }
    ensures kept_rows_room { (vec_capacity kept_rows.old ≤ vec_capacity kept_rows.new) × (vec_len kept_rows.new ≡ vec_len kept_rows.old + 1) }
    ensures wides_room { (vec_capacity wides.old ≤ vec_capacity wides.new) × (vec_len wides.new ≤ vec_len wides.old + 1) }
{
    let place = wides.len();
    wides.push_reserved(LogRow {
        time: row.time,
        first_byte: row.first_byte,
        first_event: row.first_event,
        bytes: row.bytes,
        events: row.events,
        deed: row.deed,
        trail: row.trail,
    });
    kept_rows.push_reserved(KeptRow::Wide { place });
}

/// The row that a kept row stands for.
#[inline(always)]
fn full(wides: &[LogRow], kept_row: &KeptRow) -> LogRow
    requires { IsKeptRowIn (length wides.now) kept_row.now }
    ensures { result ≡ row_of wides.now kept_row.now }
{
    match kept_row {
        KeptRow::Brief {
            events,
            bytes,
            time,
            first_byte,
            first_event,
            deed,
            trail,
        } => LogRow {
            time: u64::from(*time),
            first_byte: *first_byte as usize,
            first_event: *first_event as usize,
            bytes: *bytes,
            events: *events,
            deed: *deed,
            trail: trail.full(),
        },
        KeptRow::Wide { place } => wides[*place],
    }
}
