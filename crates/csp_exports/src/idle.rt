//! What of a scene was of no use in its run: faults that hit no frame, nodes that sent nothing, sockets that nobody reached.

ghost use Rattle.std.specs.Prelude.{◌≡◌, ◌++◌, OnOk, IfOk};
ghost use Rattle.std.specs.String.{string_bytes};
ghost use Rattle.csp_report.specs.Lines.{ended_line, text_of};
ghost use Rattle.csp_exports.specs.Unused.{title_line, unused, unused_lines};

use crate::faults::push_links;
use crate::nodes::push_nodes;
use crate::sockets::push_sockets;
use csp_record::{PartyLog, Record};
use csp_report::{begin_line, end_line, push_count};
use csp_scene::{Scene, SceneLink, SceneNode};
use std::alloc::{AllocError, Global};

/// The version of the text, which its first line tells.
pub const UNUSED_VERSION: u64 = 1;

/// Appends the version of the text.
fn push_title(out: &mut String) -> Result<(), AllocError>
    ensures { OnOk result (string_bytes out.new ≡ string_bytes out.old ++ ended_line title_line) }
{
    begin_line(out, "csp-unused")?;
    push_count(out, UNUSED_VERSION)?;
    end_line(out)
}

/// Appends the lines of the text.
fn push_lines(
    out: &mut String,
    nodes: &[SceneNode],
    links: &[SceneLink],
    parties: &[PartyLog],
) -> Result<(), AllocError>
    ensures { OnOk result (string_bytes out.new ≡ string_bytes out.old ++ text_of (unused_lines nodes.now links.now parties.now)) }
{
    push_title(out)?;
    push_links(out, nodes, parties, links)?;
    push_nodes(out, parties, nodes)?;
    push_sockets(out, parties, nodes)?;
    Ok(())
}

#[tactic(auto, using(crate::proofs::Walking::unused_is))]
/// What of a scene was of no use in its run, a line for each: faults that hit no frame, nodes that sent nothing, and sockets
/// that nobody reached.
pub fn unused(alloc: Global, scene: &Scene, run: &Record) -> Result<Vec<u8>, AllocError>
    ensures { IfOk result (λ bytes. bytes.items ≡ unused scene.now run.now) }
{
    let mut out = String::new(alloc);
    push_lines(
        &mut out,
        scene.nodes.as_slice(),
        scene.links.as_slice(),
        run.parties.as_slice(),
    )?;
    Ok(out.into_bytes())
}
