//! The picture of a run.

ghost use Rattle.std.specs.Prelude.{◌≡◌, ◌++◌, ◌≤◌, length, OnOk, IfOk};
ghost use Rattle.std.specs.String.{string_bytes};
ghost use Rattle.csp_scene.specs.Ranges.{IsScene};
ghost use Rattle.csp_picture.specs.Picture.{box_word, view_box, svg_word, head, frame, drawn, picture};
ghost use Rattle.csp_picture.specs.Places.{width, height};
ghost use Rattle.csp_picture.specs.Rows.{shapes, notes};
ghost use Rattle.csp_picture.specs.Seen.{nothing_seen, after_all};

use crate::elements::push_measure;
use crate::legend::{push_columns, push_legend};
use crate::places::{height, width};
use crate::rows::{push_notes, push_shapes};
use crate::seen::{Seen, Window};
use crate::style::push_style;
use csp_happenings::{Happening, happenings};
use csp_record::Record;
use csp_scene::{MAX_LINKS, MAX_NODES, Scene, SceneLink, SceneNode};
use csp_text::push_number;
use std::alloc::{AllocError, Global};

#[tactic(auto, unfolding(crate::specs::Picture::box_word))]
/// Appends how the size is named.
fn push_box_word(out: &mut String) -> Result<(), AllocError>
    ensures { OnOk result (string_bytes out.new ≡ string_bytes out.old ++ box_word) }
{
    out.push_str(" viewBox='0 0 ")
}

#[tactic(auto, unfolding(crate::specs::Picture::view_box))]
/// Appends ` viewBox='0 0 WIDTH HEIGHT'>`.
fn push_box(out: &mut String, width: u64, height: u64) -> Result<(), AllocError>
    ensures { OnOk result (string_bytes out.new ≡ string_bytes out.old ++ view_box width height) }
{
    push_box_word(out)?;
    push_number(out, width)?;
    out.push_str(" ")?;
    push_number(out, height)?;
    out.push_str("'>\n")
}

#[tactic(auto, unfolding(crate::specs::Picture::svg_word))]
/// Appends how every picture begins.
fn push_svg_word(out: &mut String) -> Result<(), AllocError>
    ensures { OnOk result (string_bytes out.new ≡ string_bytes out.old ++ svg_word) }
{
    out.push_str("<svg xmlns='http://www.w3.org/2000/svg'")
}

#[tactic(auto, unfolding(crate::specs::Picture::head))]
/// Appends how a picture of this width and height begins.
fn push_head(out: &mut String, width: u64, height: u64) -> Result<(), AllocError>
    ensures { OnOk result (string_bytes out.new ≡ string_bytes out.old ++ head width height) }
{
    push_svg_word(out)?;
    push_measure(out, "width", width)?;
    push_measure(out, "height", height)?;
    push_box(out, width, height)
}

/// Appends how a picture of so many nodes, links and rows begins.
fn push_sized_head(
    out: &mut String,
    nodes: usize,
    links: usize,
    rows: u32,
) -> Result<(), AllocError>
    requires nodes { nodes ≤ MAX_NODES }
    requires links { links ≤ MAX_LINKS }
    ensures { OnOk result (string_bytes out.new ≡ string_bytes out.old ++ head (width nodes) (height links rows)) }
{
    push_head(out, width(nodes), height(links, rows))
}

#[tactic(auto, unfolding(crate::specs::Picture::frame))]
/// Appends what a picture of so many rows has besides what happened.
fn push_frame(
    alloc: Global,
    out: &mut String,
    nodes: &[SceneNode],
    links: &[SceneLink],
    rows: u32,
) -> Result<(), AllocError>
    requires nodes { length nodes.now ≤ MAX_NODES }
    requires links { length links.now ≤ MAX_LINKS }
    ensures { OnOk result (string_bytes out.new ≡ string_bytes out.old ++ frame nodes.now links.now rows) }
{
    push_sized_head(out, nodes.len(), links.len(), rows)?;
    push_style(out)?;
    push_legend(alloc, out, nodes, links)?;
    push_columns(out, nodes, links.len(), rows)
}

#[tactic(auto, using(crate::proofs::Steps::after_end))]
/// Passes over all that happened.
fn pass_all(
    seen: &mut Seen,
    window: Option<Window>,
    happenings: &[Happening],
) -> Result<(), AllocError>
    ensures { OnOk result (seen.new ≡ after_all window seen.old happenings.now) }
{
    for happening in happenings {
        seen.pass(window, happening)?;
    }
    Ok(())
}

/// How many rows there are.
fn rows_of(alloc: Global, window: Option<Window>, happened: &[Happening]) -> Result<u32, AllocError>
    ensures { IfOk result (λ rows. rows ≡ (after_all window nothing_seen happened.now).rows) }
{
    let mut seen = Seen::new(alloc);
    pass_all(&mut seen, window, happened)?;
    Ok(seen.rows())
}

/// Appends all that is drawn.
fn push_drawing(
    alloc: Global,
    out: &mut String,
    links: &[SceneLink],
    window: Option<Window>,
    happened: &[Happening],
) -> Result<(), AllocError>
    requires { length links.now ≤ MAX_LINKS }
    ensures { OnOk result (string_bytes out.new ≡ string_bytes out.old ++ shapes links.now window nothing_seen happened.now) }
{
    let mut seen = Seen::new(alloc);
    push_shapes(out, links, window, &mut seen, happened)
}

/// Appends all that is written.
fn push_writing(
    alloc: Global,
    out: &mut String,
    nodes: usize,
    links: &[SceneLink],
    window: Option<Window>,
    happened: &[Happening],
) -> Result<(), AllocError>
    requires nodes { nodes ≤ MAX_NODES }
    requires links { length links.now ≤ MAX_LINKS }
    ensures { OnOk result (string_bytes out.new ≡ string_bytes out.old ++ notes nodes links.now window nothing_seen happened.now) }
{
    let mut seen = Seen::new(alloc);
    push_notes(alloc, out, nodes, links, window, &mut seen, happened)
}

#[tactic(auto, unfolding(crate::specs::Picture::drawn))]
/// Appends a picture of what happened.
fn push_drawn(
    alloc: Global,
    out: &mut String,
    nodes: &[SceneNode],
    links: &[SceneLink],
    window: Option<Window>,
    happened: &[Happening],
) -> Result<(), AllocError>
    requires nodes { length nodes.now ≤ MAX_NODES }
    requires links { length links.now ≤ MAX_LINKS }
    ensures { OnOk result (string_bytes out.new ≡ string_bytes out.old ++ drawn nodes.now links.now window happened.now) }
{
    let rows = rows_of(alloc, window, happened)?;
    push_frame(alloc, out, nodes, links, rows)?;
    push_drawing(alloc, out, links, window, happened)?;
    push_writing(alloc, out, nodes.len(), links, window, happened)?;
    out.push_str("</svg>\n")
}

#[tactic(auto, unfolding(crate::specs::Picture::picture))]
/// The picture of a run of this scene, as SVG: the frames that its links took and handed on, in the order of the rounds, or
/// those of a window of rounds. The line of a
/// packet on a CAN link goes from where its first frame was taken to where its last one was handed on.
///
/// # Errors
/// Want of memory.
pub fn picture(
    alloc: Global,
    scene: &Scene,
    run: &Record,
    window: Option<Window>,
) -> Result<Vec<u8>, AllocError>
    requires { IsScene scene.now }
    ensures { IfOk result (λ bytes. bytes.items ≡ picture scene.now run.now window) }
{
    let happened = happenings(alloc, scene, run)?;
    let mut out = String::new(alloc);
    push_drawn(
        alloc,
        &mut out,
        scene.nodes.as_slice(),
        scene.links.as_slice(),
        window,
        happened.as_slice(),
    )?;
    Ok(out.into_bytes())
}
