//! A connection of an application, as each line on it names it.

ghost use Rattle.std.specs.Prelude.{◌≡◌, ◌++◌, OnOk};
ghost use Rattle.std.specs.String.{string_bytes};
ghost use Rattle.std.specs.List.{join_with_byte};
ghost use Rattle.csp_report.specs.Lines.{conn_words};

use crate::lines::{begin_line, push_count, push_word};
use std::alloc::AllocError;

/// A connection of an application, by the words that name it.
#[derive(Drop)]
pub(crate) struct Named<'a> {
    pub(crate) node: &'a str,
    pub(crate) app: &'a str,
    pub(crate) slot: u8,
    pub(crate) ordinal: u64,
}

/// Appends the first words of a line on a connection: `WORD NODE APP SLOT ORD`.
pub(crate) fn push_named(out: &mut String, word: &str, named: &Named) -> Result<(), AllocError>
    ensures { OnOk result (string_bytes out.new ≡ string_bytes out.old ++ join_with_byte 32 (conn_words word.now named.now.node.now named.now.app.now named.now.slot named.now.ordinal)) }
{
    begin_line(out, word)?;
    push_word(out, named.node)?;
    push_word(out, named.app)?;
    push_count(out, u64::from(named.slot))?;
    push_count(out, named.ordinal)
}
