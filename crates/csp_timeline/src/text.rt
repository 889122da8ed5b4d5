//! The timeline: a line for each thing that happened.

ghost use Rattle.std.specs.Prelude.{◌≡◌, ◌-◌, ◌∷◌, ◌++◌, [], length, replicate, OnOk, IfOk};
ghost use Rattle.std.specs.List.{flat_map};
ghost use Rattle.std.specs.String.{string_bytes};
ghost use Rattle.std.specs.Fmt.{decimal};
ghost use Rattle.csp_timeline.specs.Labels.{label, place_of};
ghost use Rattle.csp_timeline.specs.Timeline.{column, took_words, transmission_word, what_words, line, first_line, timeline};

use crate::labels::{app_name, from_end, push_label, to_end};
use crate::reports::push_event;
use crate::words::{push_fate, push_frame, push_note, push_packet, push_sent, push_some_packet};
use csp_happenings::{Happening, Parcel, What, happenings};
use csp_record::{Record, Who};
use csp_report::{begin_line, end_line, push_count, push_counted, push_word};
use csp_scene::Scene;
use csp_text::push_number;
use std::alloc::{AllocError, Global};

/// The version of the timeline, which its first line tells.
pub const VERSION: u64 = 1;

/// How wide the column of the time is at least, but for the space that ends it.
pub const TIME_WIDTH: usize = 6;

/// How wide the column of the party is at least, but for the space that ends it.
pub const LABEL_WIDTH: usize = 14;

/// Appends so many spaces.
fn push_spaces(out: &mut String, count: usize) -> Result<(), AllocError>
    ensures { OnOk result (string_bytes out.new ≡ string_bytes out.old ++ replicate count 32) }
{
    let mut left = count;
    while left > 0 {
        out.push(' ')?;
        left -= 1;
    }
    Ok(())
}

/// Ends a column of this width with the spaces that it lacks and one more, where a word of so many bytes stands in it.
fn end_column(out: &mut String, width: usize, len: usize) -> Result<(), AllocError>
    ensures { OnOk result (string_bytes out.new ≡ string_bytes out.old ++ 32 ∷ replicate (width - len) 32) }
{
    out.push(' ')?;
    push_spaces(out, width.saturating_sub(len))
}

/// Appends the column of the time.
fn push_time(out: &mut String, time: u64) -> Result<(), AllocError>
    ensures { OnOk result (string_bytes out.new ≡ string_bytes out.old ++ column TIME_WIDTH (decimal time)) }
{
    let start = out.len();
    push_number(out, time)?;
    let len = out.len() - start;
    end_column(out, TIME_WIDTH, len)
}

/// Appends the column of the party.
fn push_who(out: &mut String, scene: &Scene, who: Who) -> Result<(), AllocError>
    ensures { OnOk result (string_bytes out.new ≡ string_bytes out.old ++ column LABEL_WIDTH (label scene.now who)) }
{
    let start = out.len();
    push_label(out, scene, who)?;
    let len = out.len() - start;
    end_column(out, LABEL_WIDTH, len)
}

/// The word for a transmission.
fn transmission_word(again: bool) -> &'static str
    ensures { result.now ≡ transmission_word again }
{
    if again { "retransmits" } else { "transmits" }
}

/// Appends that an application takes a packet from a slot.
fn push_took(
    alloc: Global,
    out: &mut String,
    scene: &Scene,
    mark: u8,
    packet: &Parcel,
) -> Result<(), AllocError>
    ensures { OnOk result (string_bytes out.new ≡ string_bytes out.old ++ took_words scene.now mark packet.now) }
{
    out.push_str("takes")?;
    push_counted(out, "slot", u64::from(mark))?;
    push_packet(alloc, out, scene, packet)
}

/// Appends what happened, at a party of the node, or at the link, in this place.
fn push_what(
    alloc: Global,
    out: &mut String,
    scene: &Scene,
    place: u8,
    what: &What,
) -> Result<(), AllocError>
    ensures { OnOk result (string_bytes out.new ≡ string_bytes out.old ++ what_words scene.now place what.now) }
{
    match what {
        What::Asked(note) => {
            out.push_str("asks")?;
            push_note(alloc, out, *note)
        }
        What::Told(note) => {
            out.push_str("told")?;
            push_note(alloc, out, *note)
        }
        What::Sent { mark, packet } => {
            out.push_str("sends")?;
            push_sent(alloc, out, scene, *mark, packet)
        }
        What::Took { mark, packet } => push_took(alloc, out, scene, *mark, packet),
        What::Answered { app, note } => {
            out.push_str("tells")?;
            push_word(out, app_name(scene, place, *app))?;
            push_note(alloc, out, *note)
        }
        What::Transmitted {
            serial,
            again,
            packet,
        } => {
            out.push_str(transmission_word(*again))?;
            push_count(out, *serial)?;
            push_some_packet(alloc, out, scene, *packet)
        }
        What::Accepted(packet) => {
            out.push_str("accepts")?;
            push_packet(alloc, out, scene, packet)
        }
        What::Carried {
            end,
            number,
            fate,
            frame,
        } => {
            out.push_str("carries")?;
            push_word(out, from_end(scene, place, *end))?;
            push_count(out, *number)?;
            push_fate(out, fate)?;
            push_frame(alloc, out, scene, frame)
        }
        What::HandedOn { end, frame } => {
            out.push_str("hands on")?;
            push_word(out, to_end(scene, place, *end))?;
            push_frame(alloc, out, scene, frame)
        }
        What::Reported { event, packet } => {
            push_event(alloc, out, scene, place, *event)?;
            push_some_packet(alloc, out, scene, *packet)
        }
    }
}

/// The place of a party's node, and of a link or a hub its own.
fn place_of(who: Who) -> u8
    ensures { result ≡ place_of who }
{
    match who {
        Who::Router(node) | Who::Bridge(node) | Who::Iface(node, _) | Who::App(node, _) => node,
        Who::Link(place) => place,
    }
}

/// Appends the line of one thing that happened.
fn push_happening(
    alloc: Global,
    out: &mut String,
    scene: &Scene,
    happening: &Happening,
) -> Result<(), AllocError>
    ensures { OnOk result (string_bytes out.new ≡ string_bytes out.old ++ line scene.now happening.now) }
{
    push_time(out, happening.time)?;
    push_who(out, scene, happening.who)?;
    push_what(alloc, out, scene, place_of(happening.who), &happening.what)?;
    end_line(out)
}

/// Appends the first line.
fn push_first(out: &mut String, title: &str, version: u64) -> Result<(), AllocError>
    ensures { OnOk result (string_bytes out.new ≡ string_bytes out.old ++ first_line title.now version) }
{
    begin_line(out, title)?;
    push_count(out, version)?;
    end_line(out)
}

/// Appends the lines of all that happened.
fn push_happenings(
    alloc: Global,
    out: &mut String,
    scene: &Scene,
    happenings: &[Happening],
) -> Result<(), AllocError>
    ensures { OnOk result (string_bytes out.new ≡ string_bytes out.old ++ flat_map (line scene.now) happenings.now) }
{
    for happening in happenings {
        push_happening(alloc, out, scene, happening)?;
    }
    Ok(())
}

/// The timeline of a run of this scene: a line for each thing that happened, round by round, and in a round party by
/// party. It is made whole before a byte of it is written.
///
/// # Errors
/// Want of memory, which is taken in proportion to what happened and to the text.
pub fn timeline(alloc: Global, scene: &Scene, run: &Record) -> Result<Vec<u8>, AllocError>
    ensures { IfOk result (λ bytes. bytes.items ≡ timeline scene.now run.now) }
{
    let list = happenings(alloc, scene, run)?;
    let mut out = String::new(alloc);
    push_first(&mut out, "csp-timeline", VERSION)?;
    push_happenings(alloc, &mut out, scene, list.as_slice())?;
    Ok(out.into_bytes())
}
