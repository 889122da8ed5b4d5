//! Faults that hit no frame.

ghost use Rattle.std.specs.Prelude.{◌≡◌, ◌++◌, ◌∷◌, ℕ, get_or, find, OnOk};
ghost use Rattle.std.specs.List.{flat_map, join_with_byte};
ghost use Rattle.std.specs.Option.{option_map};
ghost use Rattle.std.specs.String.{string_bytes};
ghost use Rattle.csp_happenings.specs.Happenings.{taken};
ghost use Rattle.csp_report.specs.Lines.{ended_line, text_of};
ghost use Rattle.csp_exports.specs.Unused.{fault_line, fault_lines, harm_words, hits_none, idle_fault_lines, is_link, link_turns, plan_lines};

use crate::parties::is_link;
use csp_happenings::FrameCounts;
use csp_link::{Fault, FaultKind};
use csp_record::PartyLog;
use csp_report::{begin_line, end_line, push_count, push_counted, push_word};
use csp_scene::{SceneLink, SceneNode};
use csp_timeline::from_word;
use std::alloc::AllocError;

/// Appends what happens to a frame, in a scenario's words.
fn push_harm(out: &mut String, kind: FaultKind) -> Result<(), AllocError>
    ensures { OnOk result (string_bytes out.new ≡ string_bytes out.old ++ 32 ∷ join_with_byte 32 (harm_words kind)) }
{
    match kind {
        FaultKind::Lose => push_word(out, "lose"),
        FaultKind::Repeat(copies) => push_counted(out, "repeat", u64::from(copies)),
        FaultKind::Delay(rounds) => push_counted(out, "delay", u64::from(rounds)),
        FaultKind::Flip(bit) => push_counted(out, "flip", u64::from(bit)),
    }
}

/// Appends the line of a fault of a link.
fn push_fault(
    out: &mut String,
    nodes: &[SceneNode],
    link: &SceneLink,
    fault: Fault,
) -> Result<(), AllocError>
    ensures { OnOk result (string_bytes out.new ≡ string_bytes out.old ++ ended_line (fault_line nodes.now link.now fault)) }
{
    begin_line(out, "fault")?;
    push_word(out, link.name.as_str())?;
    push_word(out, from_word(nodes, link, fault.dir))?;
    push_count(out, fault.frame)?;
    push_harm(out, fault.kind)?;
    end_line(out)
}

/// Whether a fault hits no frame of a link that took so many frames from each end.
fn hits_none(fault: Fault, counts: &FrameCounts) -> bool
    ensures { result ≡ hits_none (λ end. get_or counts.now end 0) fault }
{
    counts.taken_from(fault.dir) < fault.frame
}

/// Appends the line of a fault, where it hits no frame of such a link.
fn push_idle_fault(
    out: &mut String,
    counts: &FrameCounts,
    nodes: &[SceneNode],
    link: &SceneLink,
    fault: Fault,
) -> Result<(), AllocError>
    ensures { OnOk result (string_bytes out.new ≡ string_bytes out.old ++ text_of (idle_fault_lines (λ end. get_or counts.now end 0) nodes.now link.now fault)) }
{
    if hits_none(fault, counts) {
        push_fault(out, nodes, link, fault)
    } else {
        Ok(())
    }
}

/// Appends the lines of the faults of a link that took so many frames from each end.
fn push_plan(
    out: &mut String,
    counts: &FrameCounts,
    nodes: &[SceneNode],
    link: &SceneLink,
) -> Result<(), AllocError>
    ensures { OnOk result (string_bytes out.new ≡ string_bytes out.old ++ text_of (plan_lines (λ end. get_or counts.now end 0) nodes.now link.now)) }
{
    for fault in link.plan.as_slice() {
        push_idle_fault(out, counts, nodes, link, *fault)?;
    }
    Ok(())
}

/// The party of the link at this place among the links.
fn link_party(parties: &[PartyLog], number: usize) -> Option<&PartyLog>
    ensures { option_map (λ party. party.now) result ≡ find (λ party. is_link number party.who) parties.now }
{
    parties.iter().find(|party| is_link(party.who, number))
}

/// How many frames the link at this place took from each end.
fn counts_of(parties: &[PartyLog], number: usize) -> FrameCounts
    ensures { (end : ℕ) → get_or result end 0 ≡ taken end (link_turns parties.now number) }
{
    match link_party(parties, number) {
        Some(party) => FrameCounts::along(&party.log),
        None => FrameCounts::none(),
    }
}

/// Appends the lines of the faults of the link at this place.
fn push_link(
    out: &mut String,
    nodes: &[SceneNode],
    parties: &[PartyLog],
    number: usize,
    link: &SceneLink,
) -> Result<(), AllocError>
    ensures { OnOk result (string_bytes out.new ≡ string_bytes out.old ++ text_of (plan_lines (λ end. taken end (link_turns parties.now number)) nodes.now link.now)) }
{
    let counts = counts_of(parties, number);
    push_plan(out, &counts, nodes, link)?;
    Ok(())
}

/// Appends the lines of the faults of all links.
pub(crate) fn push_links(
    out: &mut String,
    nodes: &[SceneNode],
    parties: &[PartyLog],
    links: &[SceneLink],
) -> Result<(), AllocError>
    ensures { OnOk result (string_bytes out.new ≡ string_bytes out.old ++ text_of (fault_lines nodes.now parties.now links.now)) }
{
    for (number, link) in links.iter().enumerate() {
        push_link(out, nodes, parties, number, link)?;
    }
    Ok(())
}
