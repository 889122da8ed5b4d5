//! The text of a table, written: its rows by prefix, joined by `, `, each with its mask.

ghost use Rattle.std.specs.Prelude.{◌≡◌, ◌<◌, [], ◌++◌, map, length, IfOk, OnOk, IfSome};
ghost use Rattle.std.specs.List.{All};
ghost use Rattle.std.specs.String.{string_bytes};
ghost use Rattle.csp_route.specs.Routes.{kept_key, entry_of, IsWithin};
ghost use Rattle.csp_route.specs.Text.{names_of, parsed};
ghost use Rattle.csp_route.specs.Written.{target_text, via_text, row_text, joined, written, IsWritable, TellApart};

use crate::{Row, Table};
use csp_base::{Addr, Name};
use csp_text::push_number;
use std::alloc::{AllocError, Global};

/// Appends the word `ADDR/MASK` of a row that is kept.
fn push_target(out: &mut String, row: &Row) -> Result<(), AllocError>
    ensures text { OnOk result (string_bytes out.new ≡ string_bytes out.old ++ target_text (kept_key row.now)) }
    ensures writable { OnOk result (row.now.addr < 32) }
{
    push_number(out, u64::from(row.addr.get()))?;
    out.push_str("/")?;
    push_number(out, u64::from(row.mask))
}

/// Appends a next hop, after the space before it.
fn push_via(out: &mut String, via: Option<Addr>) -> Result<(), AllocError>
    ensures text { OnOk result (string_bytes out.new ≡ string_bytes out.old ++ via_text via) }
    ensures writable { OnOk result (IfSome via (λ via. via < 32)) }
{
    let Some(via) = via else {
        return Ok(());
    };
    out.push_str(" ")?;
    push_number(out, u64::from(via.get()))
}

/// Appends a row that is kept: `ADDR/MASK IFACE [VIA]`.
fn push_row(out: &mut String, row: &Row, ifaces: &[Name]) -> Result<(), AllocError>
    requires { row.now.iface < length ifaces.now }
    ensures text { OnOk result (string_bytes out.new ≡ string_bytes out.old ++ row_text (names_of ifaces.now) (entry_of row.now)) }
    ensures writable { OnOk result (IsWritable row.now) }
{
    push_target(out, row)?;
    out.push_str(" ")?;
    out.push_str(ifaces[usize::from(row.iface)].as_str())?;
    push_via(out, row.via)
}

/// Appends rows that are kept, joined by `, `.
fn push_rows(out: &mut String, rows: &[Row], ifaces: &[Name]) -> Result<(), AllocError>
    requires { All (λ row. row.iface < length ifaces.now) rows.now }
    ensures text { OnOk result (string_bytes out.new ≡ string_bytes out.old ++ joined [] (map (row_text (names_of ifaces.now)) (map entry_of rows.now))) }
    ensures writable { OnOk result (All IsWritable rows.now) }
{
    let mut gap = "";
    for row in rows {
        out.push_str(gap)?;
        push_row(out, row, ifaces)?;
        gap = ", ";
    }
    Ok(())
}

impl Table {
    /// The table as text: its rows in the order of their masked addresses, then of their masks,
    /// each `ADDR/MASK IFACE [VIA]` and joined by `, `. The interface of a row is written by its
    /// name, which stands in `ifaces` at the row's index.
    ///
    /// What is written is read as this table again, where the names differ and each has a byte,
    /// but no space and no comma.
    pub fn write(&self, alloc: Global, ifaces: &[Name]) -> Result<String, AllocError>
        requires { IsWithin (length ifaces.now) self.now }
        ensures text { IfOk result (λ text. string_bytes text ≡ written (names_of ifaces.now) self.now) }
        ensures parses { TellApart (names_of ifaces.now) → IfOk result (λ text. parsed (names_of ifaces.now) (string_bytes text) ≡ Ok self.now) }
    {
        let mut out = String::new(alloc);
        push_rows(&mut out, self.rows(), ifaces)?;
        Ok(out)
    }
}
