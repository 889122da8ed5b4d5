//! A line of a scenario.

ghost use Rattle.std.specs.Prelude.{◌≡◌, ◌++◌, ◌∷◌, [], OnOk};
ghost use Rattle.std.specs.String.{string_bytes};
ghost use Rattle.std.specs.Fmt.{decimal};
ghost use Rattle.csp_gen.specs.Lines.{ended_line};

use csp_text::push_number;
use std::alloc::AllocError;

/// Appends a line that has a number between two texts.
pub(crate) fn push_line_with(
    out: &mut String,
    before: &str,
    number: u32,
    after: &str,
) -> Result<(), AllocError>
    ensures { OnOk result (string_bytes out.new ≡ string_bytes out.old ++ ended_line (before.now ++ decimal number ++ after.now)) }
{
    out.push_str(before)?;
    push_number(out, u64::from(number))?;
    out.push_str(after)?;
    out.push('\n')
}
