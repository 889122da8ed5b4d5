//! The report of a run.

ghost use Rattle.std.specs.Prelude.{◌≡◌, ◌++◌, ◌∷◌, ◌-◌, ◌^◌, ◌≤◌, [], length, map, OnOk, OnErr, IfOk};
ghost use Rattle.std.specs.String.{string_bytes};
ghost use Rattle.std.specs.Fmt.{decimal};
ghost use Rattle.std.specs.List.{AllByRecursion};
ghost use Rattle.csp_scene.specs.Ranges.{IsNode, IsScene};
ghost use Rattle.csp_record.specs.Passed.{passed};
ghost use Rattle.csp_record.specs.Stale.{stale};
ghost use Rattle.csp_record.specs.Whole.{IsWhole};
ghost use Rattle.csp_report.specs.Lines.{ended_line, text_of};
ghost use Rattle.csp_report.specs.Report.{end_line, count_lines, report_lines, report};
ghost use Rattle.csp_report.specs.PlacesAddUp.{PlacesAddUp};

use crate::apps::push_apps;
use crate::events::push_asked_of_nodes;
use crate::ifaces::push_ifaces;
use crate::lines::{begin_line, end_line, push_count, push_counted};
use crate::places::push_nodes;
use crate::routers::push_routers;
use csp_record::{Record, passed, stale};
use csp_scene::{MAX_LINKS, MAX_NODES, Scene, SceneLink, SceneNode};
use std::alloc::{AllocError, Global};

/// The version of the report, which its first line tells.
pub const VERSION: u64 = 2;

/// Appends a line of a word and a number.
fn push_total(out: &mut String, word: &str, count: u64) -> Result<(), AllocError>
    ensures { OnOk result (string_bytes out.new ≡ string_bytes out.old ++ ended_line (word.now ∷ decimal count ∷ [])) }
{
    begin_line(out, word)?;
    push_count(out, count)?;
    end_line(out)
}

/// Appends whether every application had ended, and the rounds made.
fn push_end(out: &mut String, run: &Record) -> Result<(), AllocError>
    ensures { OnOk result (string_bytes out.new ≡ string_bytes out.old ++ ended_line (end_line run.now)) }
{
    begin_line(out, "end")?;
    if run.finished {
        push_counted(out, "finished", run.rounds)?;
    } else {
        push_counted(out, "unfinished", run.rounds)?;
    }
    end_line(out)
}

/// How many stale copies a record tells of. Memory is wanting exactly where they are 2^64 - 1 or more, where their count
/// stands still.
fn stale_copies(run: &Record) -> Result<u64, AllocError>
    ensures ok { IfOk result (λ count. count ≡ stale run.now) }
    ensures err { OnErr result (2 ^ 64 - 1 ≤ stale run.now) }
{
    let count = stale(run);
    if count == u64::MAX {
        return Err(AllocError);
    }
    Ok(count)
}

/// Appends the last two lines, of which the second has this number.
fn push_last(out: &mut String, run: &Record, count: u64) -> Result<(), AllocError>
    requires { count ≡ passed run.now }
    ensures { OnOk result (string_bytes out.new ≡ string_bytes out.old ++ text_of (count_lines run.now)) }
{
    push_total(out, "stale", stale_copies(run)?)?;
    push_total(out, "passed", count)
}

/// Appends the lines of a report on these nodes and links, of which the last has this number.
fn push_lines(
    alloc: Global,
    out: &mut String,
    nodes: &[SceneNode],
    links: &[SceneLink],
    run: &Record,
    count: u64,
) -> Result<(), AllocError>
    requires passed { count ≡ passed run.now }
    requires nodes { AllByRecursion IsNode nodes.now }
    requires few { length nodes.now ≤ MAX_NODES }
    requires few_links { length links.now ≤ MAX_LINKS }
    ensures { OnOk result (string_bytes out.new ≡ string_bytes out.old ++ text_of (report_lines nodes.now links.now run.now)) }
{
    push_total(out, "csp-report", VERSION)?;
    push_end(out, run)?;
    push_nodes(out, nodes, run)?;
    push_routers(out, nodes, run)?;
    push_ifaces(out, nodes, links, run)?;
    push_asked_of_nodes(out, nodes, run)?;
    push_apps(alloc, out, nodes, run)?;
    push_last(out, run, count)?;
    Ok(())
}

#[tactic(auto, using(crate::proofs::ReportLemmas::report_is))]
/// The report of a run of this scene: where each buffer was at the end, what the routers discarded, what the
/// interfaces sent and accepted, which nodes were asked to start again or to stop, how far each application came,
/// what it sent and took on its connections, how many stale copies there were, and how many packets passed a link
/// changed. Each line ends with a line feed.
pub fn report(alloc: Global, run: &Record, scene: &Scene) -> Result<Vec<u8>, AllocError>
    requires { IsScene scene.now }
    ensures bytes { IfOk result (λ bytes. bytes.items ≡ report scene.now run.now) }
    ensures places { IfOk result (λ bytes. IsWhole (map (λ n. n.buffers) scene.now.nodes) run.now → PlacesAddUp bytes.items) }
{
    let count = passed(alloc, run)?;
    let mut out = String::new(alloc);
    push_lines(
        alloc,
        &mut out,
        scene.nodes.as_slice(),
        scene.links.as_slice(),
        run,
        count,
    )?;
    Ok(out.into_bytes())
}
