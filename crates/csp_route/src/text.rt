//! The text of a table, read: rows `ADDR[/MASK] IFACE [VIA]`, separated by commas.

ghost use Rattle.std.specs.Prelude.{◌≡◌, ◌==◌, ◌≤◌, ◌<◌, ◌∷◌, [], IsTrue, IfOk, IfErr, IfSome, length, nat_lt, if◌then◌else◌, min};
ghost use Rattle.std.specs.List.{list_all, position};
ghost use Rattle.std.specs.Str.{bytes_eq};
ghost use Rattle.std.specs.FinMap as finite;
ghost use Rattle.csp_text.specs.Numbers.{is_decimal, number_of};
ghost use Rattle.csp_route.specs.Routes.{IsWithin};
ghost use Rattle.csp_route.specs.Parts.{start_of};
ghost use Rattle.csp_route.specs.Text.{demand, target_of, target_from, iface_of, iface_named, via_of, nothing_of, row_of, put_at, parsed, names_of, ReadsRow};

use crate::parts::Part;
use crate::{MAX_MASK, RouteError, RouteKind, Row, Table};
use csp_base::{Addr, Name};
use csp_text::{is_decimal, number};

/// The most interfaces that rows can name: as many as a byte has numbers.
pub const MAX_IFACES: usize = 256;

/// An error at a place.
fn refused<T>(at: usize, kind: RouteKind) -> Result<T, RouteError>
    ensures { result ≡ Err (record { at = at; kind = kind }) }
{
    Err(RouteError { at, kind })
}

/// What must hold, else an error at a place.
fn demand(holds: bool, at: usize, kind: RouteKind) -> Result<(), RouteError>
    ensures { result ≡ demand holds at kind }
{
    if holds { Ok(()) } else { refused(at, kind) }
}

/// The number of a decimal word, or 255 where it is larger.
fn small_number(word: &[u8]) -> u8
    requires { IsTrue (is_decimal word.now) }
    ensures { result ≡ min (number_of word.now) 255 }
{
    match number(word) {
        Some(value) => value.min(255) as u8,
        None => 255,
    }
}

/// The address of a decimal word.
fn address(word: &[u8]) -> Option<Addr>
    requires { IsTrue (is_decimal word.now) }
    ensures { result ≡ (if nat_lt (number_of word.now) 32 then Some (number_of word.now) else None) }
{
    Addr::new(small_number(word))
}

/// The word `ADDR`.
fn plain_target(addr: &Part<'_>, at: usize) -> Result<(Addr, u8), RouteError>
    ensures value { result ≡ target_from at (addr.now ∷ []) }
{
    demand(is_decimal(addr.bytes()), at, RouteKind::Syntax)?;
    match address(addr.bytes()) {
        Some(addr) => Ok((addr, MAX_MASK)),
        None => refused(at, RouteKind::Range),
    }
}

/// The word `ADDR/MASK`.
fn masked_target(addr: &Part<'_>, mask: &Part<'_>, at: usize) -> Result<(Addr, u8), RouteError>
    ensures value { result ≡ target_from at (addr.now ∷ mask.now ∷ []) }
{
    demand(is_decimal(addr.bytes()), at, RouteKind::Syntax)?;
    demand(is_decimal(mask.bytes()), mask.at(), RouteKind::Syntax)?;
    let Some(addr) = address(addr.bytes()) else {
        return refused(at, RouteKind::Range);
    };
    let bits = small_number(mask.bytes());
    demand(bits <= MAX_MASK, mask.at(), RouteKind::Range)?;
    Ok((addr, bits))
}

/// The first word, `ADDR[/MASK]`.
fn target(word: Option<Part<'_>>, missing: usize) -> Result<(Addr, u8), RouteError>
    ensures value { result ≡ target_of missing word.entry }
{
    let Some(word) = word else {
        return refused(missing, RouteKind::Syntax);
    };
    let mut fields = word.cut(b'/');
    let Some(addr) = fields.next() else {
        return refused(word.at(), RouteKind::Syntax);
    };
    let Some(mask) = fields.next() else {
        return plain_target(&addr, word.at());
    };
    if fields.next().is_some() {
        demand(is_decimal(addr.bytes()), word.at(), RouteKind::Syntax)?;
        return refused(mask.at(), RouteKind::Syntax);
    }
    masked_target(&addr, &mask, word.at())
}

/// The number of the first interface of this name.
fn iface_named(ifaces: &[Name], word: &[u8]) -> Option<u8>
    ensures value { result ≡ iface_named (names_of ifaces.now) word.now }
{
    let known = &ifaces[..ifaces.len().min(MAX_IFACES)];
    match name_place(known, word) {
        Some(place) => Some(place as u8),
        None => None,
    }
}

/// The place of the first of these names that is the word.
fn name_place(names: &[Name], word: &[u8]) -> Option<usize>
    ensures value { result ≡ position (λ name. bytes_eq name.bytes word.now) names.now }
    ensures inside { IfSome result (λ place. place < length names.now) }
{
    names.iter().position(|name| name.as_bytes() == word)
}

/// The second word, `IFACE`.
fn iface(word: Option<Part<'_>>, missing: usize, ifaces: &[Name]) -> Result<u8, RouteError>
    ensures value { result ≡ iface_of (names_of ifaces.now) missing word.entry }
{
    let Some(word) = word else {
        return refused(missing, RouteKind::Syntax);
    };
    match iface_named(ifaces, word.bytes()) {
        Some(iface) => Ok(iface),
        None => refused(word.at(), RouteKind::NoInterface),
    }
}

/// The third word, `VIA`, where there is one.
fn via(word: Option<Part<'_>>) -> Result<Option<Addr>, RouteError>
    ensures value { result ≡ via_of word.entry }
{
    let Some(word) = word else {
        return Ok(None);
    };
    demand(is_decimal(word.bytes()), word.at(), RouteKind::Syntax)?;
    match address(word.bytes()) {
        Some(addr) => Ok(Some(addr)),
        None => refused(word.at(), RouteKind::Range),
    }
}

/// No fourth word.
fn nothing(word: Option<Part<'_>>) -> Result<(), RouteError>
    ensures value { result ≡ nothing_of word.entry }
{
    match word {
        Some(word) => refused(word.at(), RouteKind::Syntax),
        None => Ok(()),
    }
}

/// What a row says, or its first word that is in error or missing.
fn row(part: &Part<'_>, ifaces: &[Name]) -> Result<Row, RouteError>
    ensures value { result ≡ row_of (names_of ifaces.now) part.now }
    ensures short { IfOk result (λ row. row.mask ≤ MAX_MASK) }
{
    let missing = part.end();
    let mut words = part.cut(b' ');
    let (addr, mask) = target(words.word(), missing)?;
    let iface = iface(words.word(), missing, ifaces)?;
    let via = via(words.word())?;
    nothing(words.word())?;
    Ok(Row {
        addr,
        mask,
        iface,
        via,
    })
}

/// The place of a row's first word.
fn start(part: &Part<'_>) -> usize
    ensures { result ≡ start_of part.now }
{
    match part.cut(b' ').word() {
        Some(word) => word.at(),
        None => part.end(),
    }
}

/// Puts a row that stands at a place into a table.
fn put_at(table: &mut Table, row: Row, at: usize) -> Result<(), RouteError>
    requires { row.mask ≤ MAX_MASK }
    ensures ok { IfOk result (λ _. put_at at table.old row ≡ Ok table.new) }
    ensures err { IfErr result (λ e. put_at at table.old row ≡ Err e) }
{
    match table.set(row) {
        Ok(()) => Ok(()),
        Err(_) => refused(at, RouteKind::Full),
    }
}

/// Whether a text is nothing but spaces.
fn is_blank(text: &[u8]) -> bool
    ensures { result ≡ list_all (λ byte. byte == 32) text.now }
{
    text.iter().all(|byte| *byte == b' ')
}

/// Reads the row of a part into a table.
fn read_row(table: &mut Table, part: &Part<'_>, ifaces: &[Name]) -> Result<(), RouteError>
    ensures ok { IfOk result (λ _. ReadsRow (names_of ifaces.now) table.old part.now (Ok table.new)) }
    ensures err { IfErr result (λ e. ReadsRow (names_of ifaces.now) table.old part.now (Err e)) }
{
    match row(part, ifaces) {
        Ok(row) => put_at(table, row, start(part)),
        Err(error) => Err(error),
    }
}

impl Table {
    /// The table that a text says: rows `ADDR[/MASK] IFACE [VIA]`, separated by commas, with
    /// spaces between words and on either side of a comma. ADDR and VIA are decimal numbers up to
    /// 31, MASK is one up to 5, and 5 where none is written; IFACE is one of the names in
    /// `ifaces`, and the row has its index. A text of nothing but spaces is the table without
    /// rows.
    ///
    /// The first row with an error gives the answer, by its first word that is in error or
    /// missing, and with Full last. In one word Syntax comes before Range, and an error of ADDR,
    /// which stands at the word's first byte, before one of MASK, which stands at the byte after
    /// the first `/`.
    pub fn parse(text: &str, ifaces: &[Name]) -> Result<Table, RouteError>
        ensures value { result ≡ parsed (names_of ifaces.now) text.now }
        ensures known { IfOk result (λ table. IsWithin (length ifaces.now) table) }
    {
        Table::parse_bytes(text.as_bytes(), ifaces)
    }

    /// The same, of bytes that need not be text.
    pub fn parse_bytes(text: &[u8], ifaces: &[Name]) -> Result<Table, RouteError>
        ensures value { result ≡ parsed (names_of ifaces.now) text.now }
        ensures known { IfOk result (λ table. IsWithin (length ifaces.now) table) }
    {
        let mut table = Table::new();
        if is_blank(text) {
            return Ok(table);
        }
        let mut rows = Part::whole(text).cut(b',');
        while let Some(part) = rows.next() {
            read_row(&mut table, &part, ifaces)?;
        }
        Ok(table)
    }
}
