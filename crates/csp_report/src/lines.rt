//! Lines of words.

ghost use Rattle.std.specs.Prelude.{◌≡◌, ◌++◌, ◌∷◌, [], OnOk};
ghost use Rattle.std.specs.String.{string_bytes};
ghost use Rattle.std.specs.Fmt.{decimal};

use csp_text::push_number;
use std::alloc::AllocError;

/// Appends the first word of a line.
pub fn begin_line(out: &mut String, word: &str) -> Result<(), AllocError>
    ensures { OnOk result (string_bytes out.new ≡ string_bytes out.old ++ word.now) }
{
    out.push_str(word)
}

/// Appends a further word.
pub fn push_word(out: &mut String, word: &str) -> Result<(), AllocError>
    ensures { OnOk result (string_bytes out.new ≡ string_bytes out.old ++ 32 ∷ word.now) }
{
    out.push(' ')?;
    out.push_str(word)
}

/// Appends a further word that is a number, in decimal digits.
pub fn push_count(out: &mut String, count: u64) -> Result<(), AllocError>
    ensures { OnOk result (string_bytes out.new ≡ string_bytes out.old ++ 32 ∷ decimal count) }
{
    out.push(' ')?;
    push_number(out, count)
}

/// Appends a further word and the number that belongs to it.
pub fn push_counted(out: &mut String, word: &str, count: u64) -> Result<(), AllocError>
    ensures { OnOk result (string_bytes out.new ≡ string_bytes out.old ++ 32 ∷ (word.now ++ 32 ∷ decimal count)) }
{
    push_word(out, word)?;
    push_count(out, count)
}

/// Ends a line.
pub fn end_line(out: &mut String) -> Result<(), AllocError>
    ensures { OnOk result (string_bytes out.new ≡ string_bytes out.old ++ 10 ∷ []) }
{
    out.push('\n')
}
