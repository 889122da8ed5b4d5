//! The elements of a picture.

ghost use Rattle.std.specs.Prelude.{◌≡◌, ◌++◌, OnOk, IfOk, codes};
ghost use Rattle.std.specs.String.{string_bytes};
ghost use Rattle.std.specs.Fmt.{decimal};
ghost use Rattle.csp_picture.specs.Elements.{attribute, opened, located, closed, line, dot, long, text_start, text_words, text};

use csp_text::push_number;
use std::alloc::AllocError;

/// The radius of a dot.
pub const RADIUS: u64 = 3;

/// How far above its foot a letter rises, and how far below it drops, at most.
pub const RISES: u64 = 12;

pub const DROPS: u64 = 4;

/// How wide a letter is.
pub const CHAR_WIDTH: u64 = 7;

/// A point: how far to the right, and how far down.
#[derive(Clone, Copy)]
pub(crate) struct Point {
    pub x: u64,
    pub y: u64,
}

/// Appends ` NAME='VALUE'`.
pub(crate) fn push_attribute(out: &mut String, name: &str, value: &str) -> Result<(), AllocError>
    ensures { OnOk result (string_bytes out.new ≡ string_bytes out.old ++ attribute name.now value.now) }
{
    out.push(' ')?;
    out.push_str(name)?;
    out.push_str("='")?;
    out.push_str(value)?;
    out.push_str("'")
}

/// Appends ` NAME='NUMBER'`.
pub(crate) fn push_measure(out: &mut String, name: &str, number: u64) -> Result<(), AllocError>
    ensures { OnOk result (string_bytes out.new ≡ string_bytes out.old ++ attribute name.now (decimal number)) }
{
    out.push(' ')?;
    out.push_str(name)?;
    out.push_str("='")?;
    push_number(out, number)?;
    out.push_str("'")
}

/// Appends `<NAME class='CLASS'`.
fn push_opened(out: &mut String, name: &str, class: &str) -> Result<(), AllocError>
    ensures { OnOk result (string_bytes out.new ≡ string_bytes out.old ++ opened name.now class.now) }
{
    out.push_str("<")?;
    out.push_str(name)?;
    push_attribute(out, "class", class)
}

/// Appends the two attributes of a point.
fn push_point(out: &mut String, x: &str, y: &str, point: Point) -> Result<(), AllocError>
    ensures { OnOk result (string_bytes out.new ≡ string_bytes out.old ++ located x.now y.now point) }
{
    push_measure(out, x, point.x)?;
    push_measure(out, y, point.y)
}

/// Appends a last attribute that is a number, and the end of an element.
fn push_closed(out: &mut String, name: &str, number: u64) -> Result<(), AllocError>
    ensures { OnOk result (string_bytes out.new ≡ string_bytes out.old ++ (attribute name.now (decimal number) ++ closed)) }
{
    push_measure(out, name, number)?;
    out.push_str("/>\n")
}

/// Appends a line of this class from one point to another, with dashes of this length.
pub(crate) fn push_line(
    out: &mut String,
    class: &str,
    start: Point,
    stop: Point,
    dash: u64,
) -> Result<(), AllocError>
    ensures { OnOk result (string_bytes out.new ≡ string_bytes out.old ++ line class.now start stop dash) }
{
    push_opened(out, "line", class)?;
    push_point(out, "x1", "y1", start)?;
    push_point(out, "x2", "y2", stop)?;
    push_closed(out, "stroke-dasharray", dash)
}

/// Appends a dot of this class at a point.
pub(crate) fn push_dot(out: &mut String, class: &str, point: Point) -> Result<(), AllocError>
    ensures { OnOk result (string_bytes out.new ≡ string_bytes out.old ++ dot class.now point) }
{
    push_opened(out, "circle", class)?;
    push_point(out, "cx", "cy", point)?;
    push_closed(out, "r", RADIUS)
}

#[tactic(auto, unfolding(crate::specs::Elements::long))]
/// How long words are. Memory is wanting where that is more than 64 bits count.
fn length_of(words: &str) -> Result<u64, AllocError>
    ensures { IfOk result (λ number. number ≡ long words.now) }
{
    match CHAR_WIDTH.checked_mul(words.len() as u64) {
        Some(long) => Ok(long),
        None => Err(AllocError),
    }
}

#[tactic(auto, unfolding(crate::specs::Elements::text_start))]
/// Appends how a text of this class at a point begins.
fn push_text_start(out: &mut String, class: &str, point: Point) -> Result<(), AllocError>
    ensures { OnOk result (string_bytes out.new ≡ string_bytes out.old ++ text_start class.now point) }
{
    push_opened(out, "text", class)?;
    push_point(out, "x", "y", point)
}

/// Appends the words of a text and its end.
fn push_words(out: &mut String, words: &str) -> Result<(), AllocError>
    ensures { OnOk result (string_bytes out.new ≡ string_bytes out.old ++ (codes ">" ++ (words.now ++ codes "</text>\n"))) }
{
    out.push_str(">")?;
    out.push_str(words)?;
    out.push_str("</text>\n")
}

/// Appends how long the words of a text are, and they.
fn push_text_words(out: &mut String, words: &str) -> Result<(), AllocError>
    ensures { OnOk result (string_bytes out.new ≡ string_bytes out.old ++ text_words words.now) }
{
    push_measure(out, "textLength", length_of(words)?)?;
    push_words(out, words)?;
    Ok(())
}

/// Appends words of this class at a point.
pub(crate) fn push_text(
    out: &mut String,
    class: &str,
    point: Point,
    words: &str,
) -> Result<(), AllocError>
    ensures { OnOk result (string_bytes out.new ≡ string_bytes out.old ++ text class.now point words.now) }
{
    push_text_start(out, class, point)?;
    push_text_words(out, words)
}
