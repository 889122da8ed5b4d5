//! The legend, and the columns of the nodes.

ghost use Rattle.std.specs.Prelude.{◌≡◌, ◌++◌, ◌<◌, ◌≤◌, ◌^◌, length, OnOk, IfOk};
ghost use Rattle.std.specs.List.{flat_map, enumerate_from};
ghost use Rattle.std.specs.String.{string_bytes};
ghost use Rattle.csp_picture.specs.Colours.{all_colours};
ghost use Rattle.csp_picture.specs.Legend.{sample, colour_sample, node_name, link_words, link_sample, column_line, column_names, column, legend, columns};
ghost use Rattle.csp_picture.specs.Words.{spaced};

use crate::colours::{Colour, all_colours};
use crate::elements::{Point, push_line, push_text};
use crate::places::{LEGEND_STEP, across, dash, down, top};
use csp_log::End;
use csp_scene::{MAX_LINKS, MAX_NODES, SceneLink, SceneNode};
use std::alloc::{AllocError, Global};

/// Where the legend begins.
pub const LEFT: u64 = 10;

/// How long a sample of a line is.
pub const SAMPLE: u64 = 40;

/// How far apart the samples of colours are.
pub const SAMPLE_STEP: u64 = 112;

/// How far from its sample's beginning a word stands.
pub const WORD: u64 = 46;

/// The line of the colours.
pub const HEAD_LINE: u64 = 20;

/// The line of the first link.
pub const LINK_LINE: u64 = 38;

/// How far above the foot of its word a sample stands.
pub const RISE: u64 = 4;

/// How far above the columns the foot of a node's name stands.
pub const NAME_RISE: u64 = 6;

/// How far below the last row it stands once more.
pub const NAME_DROP: u64 = 18;

#[tactic(auto, unfolding(crate::specs::Legend::sample))]
/// Appends a sample of a line with its words.
fn push_sample(
    out: &mut String,
    class: &str,
    x: u64,
    y: u64,
    dash: u64,
    words: &str,
) -> Result<(), AllocError>
    requires right { x < 2 ^ 20 }
    requires below { (20 ≤ y) × (y < 2 ^ 20) }
    ensures { OnOk result (string_bytes out.new ≡ string_bytes out.old ++ sample class.now x y dash words.now) }
{
    let start = Point { x, y: y - RISE };
    let stop = Point {
        x: x + SAMPLE,
        y: y - RISE,
    };
    push_line(out, class, start, stop, dash)?;
    push_text(out, "right", Point { x: x + WORD, y }, words)
}

#[tactic(auto, unfolding(crate::specs::Legend::colour_sample))]
/// Appends the sample of the colour in this place.
fn push_colour(out: &mut String, place: usize, colour: Colour) -> Result<(), AllocError>
    requires { place < 100 }
    ensures { OnOk result (string_bytes out.new ≡ string_bytes out.old ++ colour_sample place colour) }
{
    let x = LEFT + SAMPLE_STEP * place as u64;
    push_sample(out, colour.name(), x, HEAD_LINE, 0, colour.name())
}

/// Appends the samples of these colours side by side.
fn push_colours(out: &mut String, colours: &[Colour]) -> Result<(), AllocError>
    requires { length colours.now < 100 }
    ensures { OnOk result (string_bytes out.new ≡ string_bytes out.old ++ flat_map (λ c. colour_sample c.0 c.1) (enumerate_from 0 colours.now)) }
{
    for (place, colour) in colours.iter().enumerate() {
        push_colour(out, place, *colour)?;
    }
    Ok(())
}

/// Appends the name of the node in this place, after a space.
fn push_node_name(out: &mut String, nodes: &[SceneNode], place: usize) -> Result<(), AllocError>
    ensures { OnOk result (string_bytes out.new ≡ string_bytes out.old ++ spaced (node_name nodes.now place)) }
{
    out.push(' ')?;
    match nodes.get(place) {
        Some(node) => out.push_str(node.name.as_str()),
        None => Ok(()),
    }
}

/// Appends the names of the nodes at these ends, each after a space.
fn push_end_names(out: &mut String, nodes: &[SceneNode], ends: &[End]) -> Result<(), AllocError>
    ensures { OnOk result (string_bytes out.new ≡ string_bytes out.old ++ flat_map (λ end. spaced (node_name nodes.now end.node)) ends.now) }
{
    for end in ends {
        push_node_name(out, nodes, usize::from(end.node))?;
    }
    Ok(())
}

#[tactic(auto, unfolding(crate::specs::Legend::link_words))]
/// The words of a link or a hub.
fn link_words(alloc: Global, nodes: &[SceneNode], link: &SceneLink) -> Result<String, AllocError>
    ensures { IfOk result (λ words. string_bytes words ≡ link_words nodes.now link.now) }
{
    let mut words = String::new(alloc);
    words.push_str(link.name.as_str())?;
    push_end_names(&mut words, nodes, link.ends.as_slice())?;
    Ok(words)
}

#[tactic(auto, unfolding(crate::specs::Legend::link_sample))]
/// Appends the sample of a link.
fn push_link(
    alloc: Global,
    out: &mut String,
    nodes: &[SceneNode],
    place: usize,
    link: &SceneLink,
) -> Result<(), AllocError>
    requires { place ≤ MAX_LINKS }
    ensures { OnOk result (string_bytes out.new ≡ string_bytes out.old ++ link_sample nodes.now place link.now) }
{
    let words = link_words(alloc, nodes, link)?;
    let y = LINK_LINE + LEGEND_STEP * place as u64;
    push_sample(
        out,
        Colour::Plain.name(),
        LEFT,
        y,
        dash(place),
        words.as_str(),
    )
}

/// Appends the samples of the links, one below the other.
fn push_links(
    alloc: Global,
    out: &mut String,
    nodes: &[SceneNode],
    links: &[SceneLink],
) -> Result<(), AllocError>
    requires { length links.now ≤ MAX_LINKS }
    ensures { OnOk result (string_bytes out.new ≡ string_bytes out.old ++ flat_map (λ l. link_sample nodes.now l.0 l.1) (enumerate_from 0 links.now)) }
{
    for (place, link) in links.iter().enumerate() {
        push_link(alloc, out, nodes, place, link)?;
    }
    Ok(())
}

#[tactic(auto, unfolding(crate::specs::Legend::legend))]
/// Appends the legend.
pub(crate) fn push_legend(
    alloc: Global,
    out: &mut String,
    nodes: &[SceneNode],
    links: &[SceneLink],
) -> Result<(), AllocError>
    requires { length links.now ≤ MAX_LINKS }
    ensures { OnOk result (string_bytes out.new ≡ string_bytes out.old ++ legend nodes.now links.now) }
{
    push_colours(out, all_colours())?;
    push_links(alloc, out, nodes, links)
}

#[tactic(auto, unfolding(crate::specs::Legend::column_line))]
/// Appends the line of the node in this place.
fn push_column_line(
    out: &mut String,
    links: usize,
    rows: u32,
    place: usize,
) -> Result<(), AllocError>
    requires links { links ≤ MAX_LINKS }
    requires place { place ≤ MAX_NODES }
    ensures { OnOk result (string_bytes out.new ≡ string_bytes out.old ++ column_line links rows place) }
{
    let start = Point {
        x: across(place),
        y: top(links),
    };
    let stop = Point {
        x: across(place),
        y: down(links, rows),
    };
    push_line(out, "node", start, stop, 0)
}

#[tactic(auto, unfolding(crate::specs::Legend::column_names))]
/// Appends its name above and below that.
fn push_column_names(
    out: &mut String,
    links: usize,
    rows: u32,
    place: usize,
    name: &str,
) -> Result<(), AllocError>
    requires links { links ≤ MAX_LINKS }
    requires place { place ≤ MAX_NODES }
    ensures { OnOk result (string_bytes out.new ≡ string_bytes out.old ++ column_names links rows place name.now) }
{
    let above = Point {
        x: across(place),
        y: top(links) - NAME_RISE,
    };
    let below = Point {
        x: across(place),
        y: down(links, rows) + NAME_DROP,
    };
    push_text(out, "middle", above, name)?;
    push_text(out, "middle", below, name)
}

#[tactic(auto, unfolding(crate::specs::Legend::column))]
/// Appends the column of a node.
fn push_column(
    out: &mut String,
    links: usize,
    rows: u32,
    place: usize,
    node: &SceneNode,
) -> Result<(), AllocError>
    requires links { links ≤ MAX_LINKS }
    requires place { place ≤ MAX_NODES }
    ensures { OnOk result (string_bytes out.new ≡ string_bytes out.old ++ column links rows place node.now) }
{
    push_column_line(out, links, rows, place)?;
    push_column_names(out, links, rows, place, node.name.as_str())
}

/// Appends the columns of the nodes.
pub(crate) fn push_columns(
    out: &mut String,
    nodes: &[SceneNode],
    links: usize,
    rows: u32,
) -> Result<(), AllocError>
    requires nodes { length nodes.now ≤ MAX_NODES }
    requires links { links ≤ MAX_LINKS }
    ensures { OnOk result (string_bytes out.new ≡ string_bytes out.old ++ columns nodes.now links rows) }
{
    for (place, node) in nodes.iter().enumerate() {
        push_column(out, links, rows, place, node)?;
    }
    Ok(())
}
