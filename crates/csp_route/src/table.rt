//! The routing table.

ghost use Rattle.std.specs.Prelude.{⊤, ℕ, map, ◌≡◌, ◌<◌, ◌≤◌, ◌↔◌, IsErr, OnErr, OnOk, IfSome, IsNone, length};
ghost use Rattle.std.specs.List.Sorted.{IsSearchInRange};
ghost use Rattle.std.specs.Option.{option_map};
ghost use Rattle.std.specs.FinMap as finite;
ghost use Rattle.csp_route.specs.Routes.{with_row, merged, entry_of, key_of, HasNoRoom, IsBest, NoneCovers, route_of, IsWithin};
ghost use Rattle.csp_route.specs.Kept.{AreKept, place_from};

use crate::{MAX_MASK, Prefix, Row};
use arrayvec::ArrayVec;
use csp_base::Addr;
use std::alloc::AllocError;
use std::cmp::Ordering;
use std::marker::Model;
use thiserror::Error;

/// The most rows that a table has.
pub const MAX_ROWS: usize = 32;

/// A new row that a full table has no room for.
#[derive(Clone, Copy, Debug, Error)]
#[error("the table has no room for another row")]
pub struct Full;

/// A routing table: a finite map from prefixes to where their packets go, with at most 32 rows.
#[derive(Drop)]
pub struct Table {
    rows: ArrayVec<Row, MAX_ROWS>,
}

impl Model for Table {
    ghost use Rattle.std.specs.Prelude.{map};
    ghost use Rattle.std.specs.FinMap as finite;
    ghost use Rattle.csp_route.specs.Routes.{Routes, prefix_code, hop_code, entry_of};
    ghost use Rattle.csp_route.specs.Kept.{AreKept};

    ghost Value = { Routes };

    ghost coded = { finite.code prefix_code hop_code };

    ghost view = { λ t. finite.from_sorted (map entry_of t.rows.items) };

    ghost invariant = { λ t. AreKept t.rows.items };
}

/// Where the row of a prefix stands, or else the place that keeps the rows in order.
fn place_of(rows: &[Row], prefix: Prefix) -> Result<usize, usize>
    ensures value { result ≡ place_from 0 prefix rows.now }
    ensures inside { IsSearchInRange result (length rows.now) }
{
    for (place, row) in rows.iter().enumerate() {
        match prefix.cmp(&row.key()) {
            Ordering::Less => return Err(place),
            Ordering::Equal => return Ok(place),
            Ordering::Greater => {}
        }
    }
    Err(rows.len())
}

impl Table {
    /// The table without rows.
    pub fn new() -> Table
        ensures { result ≡ finite.empty }
    {
        Table {
            rows: ArrayVec::new(),
        }
    }

    /// Puts a row into the table, in place of the row of the same prefix where one stands. It is
    /// refused, and the table stays, where the table has 32 rows of other prefixes.
    pub fn set(&mut self, row: Row) -> Result<(), Full>
        requires { row.mask ≤ MAX_MASK }
        ensures ok { OnOk result (self.new ≡ with_row self.old row) }
        ensures full { IsErr result ↔ HasNoRoom self.old (key_of row) }
        ensures err { OnErr result (self.new ≡ self.old) }
        ensures most { finite.len self.new ≤ MAX_ROWS }
        ensures known { (count : ℕ) → IsWithin count self.old → row.iface < count → OnOk result (IsWithin count self.new) }
    {
        let prefix = row.prefix();
        let kept = Row {
            addr: prefix.addr,
            ..row
        };
        match place_of(&self.rows, prefix) {
            Ok(place) => self.rows[place] = kept,
            Err(place) => {
                if self.rows.len() == MAX_ROWS {
                    return Err(Full);
                }
                self.rows.insert(place, kept);
            }
        }
        Ok(())
    }

    /// The row that a packet to this address takes: of those that cover it, the one of the
    /// greatest mask.
    pub fn find(&self, addr: Addr) -> Option<Row>
        ensures value { result ≡ route_of self.now addr }
        ensures best { IfSome result (λ row. IsBest self.now addr row) }
        ensures none { IsNone result ↔ NoneCovers self.now addr }
        ensures known { (count : ℕ) → IsWithin count self.now → IfSome result (λ row. row.iface < count) }
    {
        for mask in (0..=MAX_MASK).rev() {
            if let Ok(place) = place_of(&self.rows, Prefix::of(addr, mask)) {
                return Some(self.rows[place]);
            }
        }
        None
    }

    /// The rows, in the order of their masked addresses, then of their masks. Each row's address
    /// is masked.
    pub fn rows(&self) -> &[Row]
        ensures entries { map entry_of result.now ≡ finite.entries self.now }
        ensures kept { AreKept result.now }
        ensures most { length result.now ≤ MAX_ROWS }
    {
        self.rows.as_slice()
    }

    /// A copy, which takes no memory.
    pub fn copy(&self) -> Table
        ensures value { result ≡ self.now }
        ensures most { finite.len result ≤ MAX_ROWS }
    {
        let mut rows = ArrayVec::new();
        let _ = rows.try_extend_from_slice(&self.rows);
        Table { rows }
    }

    /// Puts every row of another table into this one, each in place of the row of the same prefix
    /// where one stands. It is refused, and the table stays, where that would make more than 32
    /// rows.
    pub fn extend(&mut self, more: &Table) -> Result<(), Full>
        ensures ok { OnOk result (self.new ≡ merged self.old more.now) }
        ensures full { IsErr result ↔ (MAX_ROWS < finite.len (merged self.old more.now)) }
        ensures err { OnErr result (self.new ≡ self.old) }
        ensures known { (count : ℕ) → IsWithin count self.old → IsWithin count more.now → OnOk result (IsWithin count self.new) }
    {
        let mut both = self.copy();
        for row in more.rows() {
            both.set(*row)?;
        }
        *self = both;
        Ok(())
    }
}

impl Clone for Table {
    ghost is_clone = { λ t copy. copy ≡ t };

    ghost is_infallible = { λ _. ⊤ };

    fn clone(&self) -> Result<Table, AllocError> {
        Ok(self.copy())
    }
}
