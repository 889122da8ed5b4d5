//! What a picture's elements look like.

ghost use Rattle.std.specs.Prelude.{◌≡◌, ◌++◌, OnOk, codes};
ghost use Rattle.std.specs.List.{flat_map};
ghost use Rattle.std.specs.String.{string_bytes};
ghost use Rattle.csp_picture.specs.Colours.{all_colours};
ghost use Rattle.csp_picture.specs.Style.{paints, look, tip_word, tip, marker_word, marked, marker_form, marker_end, marker, base_style, style};

use crate::colours::{Colour, all_colours};
use std::alloc::AllocError;

/// A white ground, and what all texts and lines look like.
const BASE: &str = "<rect width='100%' height='100%' fill='#fff'/>\n\
    <style>\n\
    text{font:12px monospace;fill:#222;stroke:#fff;stroke-width:3;paint-order:stroke}\n\
    line{stroke-width:2}\n\
    .left{text-anchor:end}\n\
    .middle{text-anchor:middle}\n\
    .node{stroke:#bbb}\n\
    text.gap{fill:#777}\n\
    line.gap{stroke:#bbb;stroke-width:1;stroke-dasharray:2 4}\n";

/// Appends the paint of a colour twice, for lines and for what they surround.
fn push_paint(out: &mut String, colour: Colour) -> Result<(), AllocError>
    ensures { OnOk result (string_bytes out.new ≡ string_bytes out.old ++ paints colour) }
{
    out.push_str("{stroke:")?;
    out.push_str(colour.paint())?;
    out.push_str(";fill:")?;
    out.push_str(colour.paint())?;
    out.push_str("}\n")
}

#[tactic(auto, unfolding(crate::specs::Style::look))]
/// Appends the look of what is of this colour.
fn push_look(out: &mut String, colour: Colour) -> Result<(), AllocError>
    ensures { OnOk result (string_bytes out.new ≡ string_bytes out.old ++ look colour) }
{
    out.push_str(".")?;
    out.push_str(colour.name())?;
    push_paint(out, colour)
}

#[tactic(auto, unfolding(crate::specs::Style::tip_word))]
/// Appends what names a tip.
fn push_tip_word(out: &mut String) -> Result<(), AllocError>
    ensures { OnOk result (string_bytes out.new ≡ string_bytes out.old ++ tip_word) }
{
    out.push_str("{marker-end:url(#")
}

#[tactic(auto, unfolding(crate::specs::Style::tip))]
/// Appends the tip of its lines.
fn push_tip(out: &mut String, colour: Colour) -> Result<(), AllocError>
    ensures { OnOk result (string_bytes out.new ≡ string_bytes out.old ++ tip colour) }
{
    out.push_str("line.")?;
    out.push_str(colour.name())?;
    push_tip_word(out)?;
    out.push_str(colour.name())?;
    out.push_str(")}\n")
}

/// Appends the looks and tips of these colours.
fn push_looks(out: &mut String, colours: &[Colour]) -> Result<(), AllocError>
    ensures { OnOk result (string_bytes out.new ≡ string_bytes out.old ++ flat_map (λ c. look c ++ tip c) colours.now) }
{
    for colour in colours {
        push_look(out, *colour)?;
        push_tip(out, *colour)?;
    }
    Ok(())
}

#[tactic(auto, unfolding(crate::specs::Style::marker_word))]
/// Appends how a tip begins.
fn push_marker_word(out: &mut String) -> Result<(), AllocError>
    ensures { OnOk result (string_bytes out.new ≡ string_bytes out.old ++ marker_word) }
{
    out.push_str("<marker id='")
}

#[tactic(auto, unfolding(crate::specs::Style::marked))]
/// Appends the names of a tip.
fn push_marked(out: &mut String, colour: Colour) -> Result<(), AllocError>
    ensures { OnOk result (string_bytes out.new ≡ string_bytes out.old ++ marked colour) }
{
    push_marker_word(out)?;
    out.push_str(colour.name())?;
    out.push_str("' class='")?;
    out.push_str(colour.name())
}

#[tactic(auto, unfolding(crate::specs::Style::marker_form))]
/// Appends the size and place of a tip.
fn push_marker_form(out: &mut String) -> Result<(), AllocError>
    ensures { OnOk result (string_bytes out.new ≡ string_bytes out.old ++ marker_form) }
{
    out.push_str(
        "' viewBox='0 0 10 10' refX='9' refY='5' markerWidth='10' markerHeight='10' markerUnits='userSpaceOnUse' orient='auto'><path d='",
    )
}

#[tactic(auto, unfolding(crate::specs::Style::marker_end))]
/// Appends how a tip ends.
fn push_marker_end(out: &mut String) -> Result<(), AllocError>
    ensures { OnOk result (string_bytes out.new ≡ string_bytes out.old ++ marker_end) }
{
    out.push_str("'/></marker>\n")
}

#[tactic(auto, unfolding(crate::specs::Style::marker))]
/// Appends what such a tip is.
fn push_marker(out: &mut String, colour: Colour) -> Result<(), AllocError>
    ensures { OnOk result (string_bytes out.new ≡ string_bytes out.old ++ marker colour) }
{
    push_marked(out, colour)?;
    push_marker_form(out)?;
    out.push_str(colour.tip())?;
    push_marker_end(out)
}

/// Appends the tips of these colours.
fn push_markers(out: &mut String, colours: &[Colour]) -> Result<(), AllocError>
    ensures { OnOk result (string_bytes out.new ≡ string_bytes out.old ++ flat_map marker colours.now) }
{
    for colour in colours {
        push_marker(out, *colour)?;
    }
    Ok(())
}

#[tactic(auto, unfolding(crate::specs::Style::base_style))]
/// Appends what all texts and lines look like.
fn push_base(out: &mut String) -> Result<(), AllocError>
    ensures { OnOk result (string_bytes out.new ≡ string_bytes out.old ++ base_style) }
{
    out.push_str(BASE)
}

#[tactic(auto, unfolding(crate::specs::Style::style))]
/// Appends the style of a picture.
pub(crate) fn push_style(out: &mut String) -> Result<(), AllocError>
    ensures { OnOk result (string_bytes out.new ≡ string_bytes out.old ++ style) }
{
    push_base(out)?;
    push_looks(out, all_colours())?;
    out.push_str("</style>\n")?;
    push_markers(out, all_colours())
}
