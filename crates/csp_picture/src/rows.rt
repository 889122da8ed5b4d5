//! The rows of a picture: what is drawn and what is written in each.

ghost use Rattle.std.specs.Prelude.{◌≡◌, ◌+◌, ◌-◌, ◌++◌, ◌==◌, ◌<◌, ◌≤◌, [], nat_lt, if◌then◌else◌, length, slice_get, OnOk, IfOk};
ghost use Rattle.std.specs.Option.{option_map_or};
ghost use Rattle.std.specs.String.{string_bytes};
ghost use Rattle.std.specs.Fmt.{decimal};
ghost use Rattle.csp_picture.specs.Rows.{link_of, node_at, end_beside, course_from, sender_of, course_to, spot, half_way, lost_line, taken_shape, handed_shape, shape, shape_of, shapes, link_name, frame_words, label, label_text, note, round_text, gap, times, notes_of, notes};
ghost use Rattle.csp_picture.specs.Seen.{is_shown, after};

use crate::colours::Colour;
use crate::elements::{Point, push_dot, push_line, push_text};
use crate::places::{across, dash, down, top, width};
use crate::seen::{Seen, Sent, Start, Window, is_shown, opens};
use crate::words::{push_fate, push_sent, push_word};
use csp_base::Origin;
use csp_happenings::{Fate, Happening, What};
use csp_log::Piece;
use csp_record::Who;
use csp_scene::{MAX_LINKS, MAX_NODES, SceneLink};
use csp_text::push_number;
use std::alloc::{AllocError, Global};

/// How far above its row a label stands.
pub const ABOVE: u64 = 7;

/// How far beside its column a label begins or ends.
pub const BESIDE: u64 = 8;

/// Where the numbers of rounds end.
pub const ROUNDS_END: u64 = 60;

/// How far below its row's middle the foot of a number stands.
pub const ROUND_DROP: u64 = 4;

/// Where the line of a gap begins, and how many rounds it is of.
pub const GAP_START: u64 = 72;

/// How far above the next row the line of a gap is.
pub const GAP_RISE: u64 = 19;

/// Over which link a frame goes, and from which node to which, each by its place.
#[derive(Clone, Copy)]
pub(crate) struct Course {
    pub link: u8,
    pub from: u8,
    pub to: u8,
}

/// The place of a link's party among the links.
fn link_of(who: Who) -> u8
    ensures { result ≡ link_of who }
{
    match who {
        Who::Link(link) => link,
        Who::Router(_) | Who::Bridge(_) | Who::Iface(_, _) | Who::App(_, _) => 0,
    }
}

/// The place of the node at an end of a link.
fn node_at(links: &[SceneLink], link: usize, end: usize) -> u8
    ensures { result ≡ node_at links.now link end }
{
    let Some(link) = links.get(link) else {
        return 0;
    };
    match link.ends.as_slice().get(end) {
        Some(end) => end.node,
        None => 0,
    }
}

/// How many ends a link or a hub has.
fn count_ends(links: &[SceneLink], link: usize) -> usize
    ensures { result ≡ option_map_or (λ l. length l.ends) (slice_get links.now link) 0 }
{
    match links.get(link) {
        Some(link) => link.ends.len(),
        None => 0,
    }
}

/// The end beside this one of a link or a hub: the one after it, and beside the last the one before it.
fn end_beside(links: &[SceneLink], link: usize, end: usize) -> usize
    requires { end ≤ 255 }
    ensures { result ≡ end_beside links.now link end }
{
    if end + 1 < count_ends(links, link) {
        end + 1
    } else {
        end.saturating_sub(1)
    }
}

/// The course of a frame that the link of this party took from this end: toward the end beside it.
fn course_from(links: &[SceneLink], who: Who, end: u8) -> Course
    ensures { result ≡ course_from links.now who end }
{
    let number = link_of(who);
    let link = usize::from(number);
    let end = usize::from(end);
    Course {
        link: number,
        from: node_at(links, link, end),
        to: node_at(links, link, end_beside(links, link, end)),
    }
}

/// The node that sent a frame, by its origin. Of none, that which received it.
fn sender_of(origin: Option<Origin>, receiver: u8) -> u8
    ensures { result ≡ sender_of origin receiver }
{
    match origin {
        Some(origin) => origin.node,
        None => receiver,
    }
}

/// The course of a frame that the link of this party handed on to this end: from the node that sent it.
fn course_to(links: &[SceneLink], who: Who, origin: Option<Origin>, end: u8) -> Course
    ensures { result ≡ course_to links.now who origin end }
{
    let link = link_of(who);
    let to = node_at(links, usize::from(link), usize::from(end));
    Course {
        link,
        from: sender_of(origin, to),
        to,
    }
}

/// The point on a node's line in a row.
fn spot(links: usize, row: u32, node: u8) -> Point
    requires { links ≤ MAX_LINKS }
    ensures { result ≡ spot links row node }
{
    Point {
        x: across(usize::from(node)),
        y: down(links, row),
    }
}

/// Half way from one node's line to another's in a row.
fn half_way(links: usize, row: u32, from: u8, to: u8) -> Point
    requires { links ≤ MAX_LINKS }
    ensures { result ≡ half_way links row from to }
{
    Point {
        x: (across(usize::from(from)) + across(usize::from(to))) / 2,
        y: down(links, row),
    }
}

/// Appends the line of a frame, if it is lost.
fn push_lost(
    out: &mut String,
    lost: bool,
    links: usize,
    row: u32,
    course: &Course,
) -> Result<(), AllocError>
    requires { links ≤ MAX_LINKS }
    ensures { OnOk result (string_bytes out.new ≡ string_bytes out.old ++ lost_line lost links row course.now) }
{
    if !lost {
        return Ok(());
    }
    push_line(
        out,
        Colour::Lost.name(),
        spot(links, row, course.from),
        half_way(links, row, course.from, course.to),
        dash(usize::from(course.link)),
    )
}

/// Appends what is drawn where a link took a frame.
fn push_taken(
    out: &mut String,
    links: usize,
    row: u32,
    course: &Course,
    fate: &Fate,
) -> Result<(), AllocError>
    requires { links ≤ MAX_LINKS }
    ensures { OnOk result (string_bytes out.new ≡ string_bytes out.old ++ taken_shape links row course.now fate.now) }
{
    push_dot(out, Colour::of(fate).name(), spot(links, row, course.from))?;
    push_lost(out, fate.lost, links, row, course)
}

/// Appends what is drawn where a link handed a frame on that it took there.
fn push_handed(
    out: &mut String,
    links: usize,
    row: u32,
    course: &Course,
    start: Option<Start>,
) -> Result<(), AllocError>
    requires { links ≤ MAX_LINKS }
    ensures { OnOk result (string_bytes out.new ≡ string_bytes out.old ++ handed_shape links row course.now start) }
{
    let stop = spot(links, row, course.to);
    let dashes = dash(usize::from(course.link));
    match start {
        Some(start) => {
            let class = start.colour.name();
            push_line(
                out,
                class,
                spot(links, start.row, course.from),
                stop,
                dashes,
            )
        }
        None => {
            let first = Point {
                x: across(usize::from(course.from)),
                y: top(links),
            };
            push_line(out, Colour::Earlier.name(), first, stop, dashes)
        }
    }
}

/// Appends what is drawn of what happened.
fn push_shape(
    out: &mut String,
    links: &[SceneLink],
    seen: &Seen,
    who: Who,
    what: &What,
) -> Result<(), AllocError>
    requires { length links.now ≤ MAX_LINKS }
    ensures { OnOk result (string_bytes out.new ≡ string_bytes out.old ++ shape links.now seen.now who what.now) }
{
    let row = seen.rows();
    match what {
        What::Carried { end, fate, .. } => {
            push_taken(out, links.len(), row, &course_from(links, who, *end), fate)
        }
        What::HandedOn { end, frame } => {
            let origin = frame.trace.origin;
            let course = course_to(links, who, origin, *end);
            push_handed(out, links.len(), row, &course, seen.start_of(origin))
        }
        _ => Ok(()),
    }
}

/// Appends what is drawn of what happened, where it is shown.
fn push_shape_of(
    out: &mut String,
    shown: bool,
    links: &[SceneLink],
    seen: &Seen,
    happening: &Happening,
) -> Result<(), AllocError>
    requires { length links.now ≤ MAX_LINKS }
    ensures { OnOk result (string_bytes out.new ≡ string_bytes out.old ++ shape_of shown links.now seen.now happening.now) }
{
    if shown {
        push_shape(out, links, seen, happening.who, &happening.what)
    } else {
        Ok(())
    }
}

/// Appends all that is drawn, and passes over what happened.
pub(crate) fn push_shapes(
    out: &mut String,
    links: &[SceneLink],
    window: Option<Window>,
    seen: &mut Seen,
    happenings: &[Happening],
) -> Result<(), AllocError>
    requires { length links.now ≤ MAX_LINKS }
    ensures { OnOk result (string_bytes out.new ≡ string_bytes out.old ++ shapes links.now window seen.old happenings.now) }
{
    for happening in happenings {
        let shown = is_shown(window, happening);
        push_shape_of(out, shown, links, seen, happening)?;
        seen.pass(window, happening)?;
    }
    Ok(())
}

/// Appends the words of a frame.
fn push_frame(out: &mut String, opening: bool, sent: Option<Sent>) -> Result<(), AllocError>
    ensures { OnOk result (string_bytes out.new ≡ string_bytes out.old ++ frame_words opening sent) }
{
    if opening {
        push_sent(out, sent)
    } else {
        push_word(out, "part")
    }
}

/// Appends the name of the link at this place.
fn push_link_name(out: &mut String, links: &[SceneLink], link: usize) -> Result<(), AllocError>
    ensures { OnOk result (string_bytes out.new ≡ string_bytes out.old ++ link_name links.now link) }
{
    match links.get(link) {
        Some(link) => out.push_str(link.name.as_str()),
        None => Ok(()),
    }
}

#[tactic(auto, unfolding(crate::specs::Rows::label))]
/// The label of a frame that a link took.
fn label_of(
    alloc: Global,
    links: &[SceneLink],
    link: usize,
    seen: &Seen,
    frame: &Piece,
    fate: &Fate,
) -> Result<String, AllocError>
    ensures { IfOk result (λ words. string_bytes words ≡ label (link_name links.now link) seen.now frame.now fate.now) }
{
    let mut words = String::new(alloc);
    push_link_name(&mut words, links, link)?;
    push_frame(
        &mut words,
        opens(frame.can),
        seen.sent_by(frame.trace.origin),
    )?;
    push_fate(&mut words, fate)?;
    Ok(words)
}

#[tactic(auto, unfolding(crate::specs::Rows::label_text))]
/// Appends a label beside its sender's line, on the side to which that goes.
fn push_label(
    out: &mut String,
    links: usize,
    row: u32,
    course: &Course,
    words: &str,
) -> Result<(), AllocError>
    requires { links ≤ MAX_LINKS }
    ensures { OnOk result (string_bytes out.new ≡ string_bytes out.old ++ label_text links row course.now words.now) }
{
    let x = across(usize::from(course.from));
    let y = down(links, row) - ABOVE;
    if course.from < course.to {
        push_text(out, "right", Point { x: x + BESIDE, y }, words)
    } else {
        push_text(out, "left", Point { x: x - BESIDE, y }, words)
    }
}

/// Appends the label of a frame that a link took.
fn push_note(
    alloc: Global,
    out: &mut String,
    links: &[SceneLink],
    seen: &Seen,
    who: Who,
    what: &What,
) -> Result<(), AllocError>
    requires { length links.now ≤ MAX_LINKS }
    ensures { OnOk result (string_bytes out.new ≡ string_bytes out.old ++ note links.now seen.now who what.now) }
{
    match what {
        What::Carried {
            end,
            fate,
            frame,
            ..
        } => {
            let words = label_of(alloc, links, usize::from(link_of(who)), seen, frame, fate)?;
            let course = course_from(links, who, *end);
            push_label(out, links.len(), seen.rows(), &course, words.as_str())
        }
        _ => Ok(()),
    }
}

/// A number in decimal digits, after what stands before it.
fn digits(alloc: Global, before: &str, number: u64) -> Result<String, AllocError>
    ensures { IfOk result (λ words. string_bytes words ≡ before.now ++ decimal number) }
{
    let mut words = String::new(alloc);
    words.push_str(before)?;
    push_number(&mut words, number)?;
    Ok(words)
}

#[tactic(auto, unfolding(crate::specs::Rows::round_text))]
/// Appends the round of a row.
fn push_round(
    alloc: Global,
    out: &mut String,
    links: usize,
    row: u32,
    round: u64,
) -> Result<(), AllocError>
    requires { links ≤ MAX_LINKS }
    ensures { OnOk result (string_bytes out.new ≡ string_bytes out.old ++ round_text links row round) }
{
    let words = digits(alloc, "", round)?;
    let foot = Point {
        x: ROUNDS_END,
        y: down(links, row) + ROUND_DROP,
    };
    push_text(out, "left", foot, words.as_str())
}

#[tactic(auto, unfolding(crate::specs::Rows::gap))]
/// Appends a gap of so many rounds above a row.
fn push_gap(
    alloc: Global,
    out: &mut String,
    nodes: usize,
    links: usize,
    row: u32,
    rounds: u64,
) -> Result<(), AllocError>
    requires nodes { nodes ≤ MAX_NODES }
    requires links { links ≤ MAX_LINKS }
    ensures { OnOk result (string_bytes out.new ≡ string_bytes out.old ++ gap nodes links row rounds) }
{
    let words = digits(alloc, "+", rounds)?;
    let y = down(links, row);
    let start = Point {
        x: GAP_START,
        y: y - GAP_RISE,
    };
    let stop = Point {
        x: width(nodes),
        y: y - GAP_RISE,
    };
    let foot = Point {
        x: GAP_START,
        y: y + ROUND_DROP,
    };
    push_line(out, "gap", start, stop, 0)?;
    push_text(out, "gap", foot, words.as_str())
}

/// Appends a gap between two rounds, if there are any between them.
fn push_gap_between(
    alloc: Global,
    out: &mut String,
    nodes: usize,
    links: usize,
    row: u32,
    last: u64,
    round: u64,
) -> Result<(), AllocError>
    requires nodes { nodes ≤ MAX_NODES }
    requires links { links ≤ MAX_LINKS }
    ensures { OnOk result (string_bytes out.new ≡ string_bytes out.old ++ (if nat_lt (last + 1) round then gap nodes links row (round - last - 1) else [])) }
{
    if last < round && round - last > 1 {
        push_gap(alloc, out, nodes, links, row, round - last - 1)
    } else {
        Ok(())
    }
}

/// Appends the round of a row, where it is another than that of the row above, and the gap between them.
fn push_times(
    alloc: Global,
    out: &mut String,
    nodes: usize,
    links: usize,
    row: u32,
    last: Option<u64>,
    round: u64,
) -> Result<(), AllocError>
    requires nodes { nodes ≤ MAX_NODES }
    requires links { links ≤ MAX_LINKS }
    ensures { OnOk result (string_bytes out.new ≡ string_bytes out.old ++ times nodes links row last round) }
{
    let Some(last) = last else {
        return push_round(alloc, out, links, row, round);
    };
    if last == round {
        return Ok(());
    }
    push_gap_between(alloc, out, nodes, links, row, last, round)?;
    push_round(alloc, out, links, row, round)
}

/// Appends what is written of what happened, where it is shown.
fn push_notes_of(
    alloc: Global,
    out: &mut String,
    shown: bool,
    nodes: usize,
    links: &[SceneLink],
    seen: &Seen,
    happening: &Happening,
) -> Result<(), AllocError>
    requires nodes { nodes ≤ MAX_NODES }
    requires links { length links.now ≤ MAX_LINKS }
    ensures { OnOk result (string_bytes out.new ≡ string_bytes out.old ++ notes_of shown nodes links.now seen.now happening.now) }
{
    if !shown {
        return Ok(());
    }
    let row = seen.rows();
    let last = seen.last();
    push_times(alloc, out, nodes, links.len(), row, last, happening.time)?;
    push_note(alloc, out, links, seen, happening.who, &happening.what)
}

/// Appends all that is written, and passes over what happened.
pub(crate) fn push_notes(
    alloc: Global,
    out: &mut String,
    nodes: usize,
    links: &[SceneLink],
    window: Option<Window>,
    seen: &mut Seen,
    happenings: &[Happening],
) -> Result<(), AllocError>
    requires nodes { nodes ≤ MAX_NODES }
    requires links { length links.now ≤ MAX_LINKS }
    ensures { OnOk result (string_bytes out.new ≡ string_bytes out.old ++ notes nodes links.now window seen.old happenings.now) }
{
    for happening in happenings {
        let shown = is_shown(window, happening);
        push_notes_of(alloc, out, shown, nodes, links, seen, happening)?;
        seen.pass(window, happening)?;
    }
    Ok(())
}
