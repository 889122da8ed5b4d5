//! The line of a node or a bridge: where its buffers were when the run ended.

ghost use Rattle.std.specs.Prelude.{◌≡◌, ◌++◌, ◌∷◌, ◌^◌, ◌≤◌, [], map, OnOk, OnErr, IfOk, codes};
ghost use Rattle.std.specs.String.{string_bytes};
ghost use Rattle.std.specs.Fmt.{decimal};
ghost use Rattle.std.specs.List.{enumerate_from, join_with_byte};
ghost use Rattle.csp_report.specs.Lines.{ended_line, text_of};
ghost use Rattle.csp_report.specs.Places.{is_of_kind, held_in};
ghost use Rattle.csp_report.specs.Report.{name_words, node_line};

use crate::lines::{begin_line, end_line, push_count, push_counted, push_word};
use csp_base::Addr;
use csp_log::Place;
use csp_record::Record;
use csp_scene::SceneNode;
use std::alloc::AllocError;

/// A kind of place of a node, by what stands before its count in the node's line.
#[derive(Clone, Copy)]
pub(crate) enum PlaceKind {
    /// `free`: the pool.
    Pool,
    /// `inbox`: the inbox, at any priority.
    Inbox,
    /// `lane`: the lanes.
    Lane,
    /// `router`: the router.
    Router,
    /// `iface`: the interfaces.
    Iface,
    /// `app`: the applications.
    App,
}

impl PlaceKind {
    /// Whether a place is of this kind.
    fn has(self, place: Place) -> bool
        ensures { result ≡ is_of_kind self place }
    {
        match (self, place) {
            (PlaceKind::Pool, Place::Pool) => true,
            (PlaceKind::Inbox, Place::Inbox(_)) => true,
            (PlaceKind::Lane, Place::Lane(_)) => true,
            (PlaceKind::Router, Place::Router) => true,
            (PlaceKind::Iface, Place::Iface(_)) => true,
            (PlaceKind::App, Place::App(_)) => true,
            _ => false,
        }
    }
}

/// How many buffers the places of this kind held at the node at this place. Memory is wanting exactly where
/// they are more than 64 bits count.
fn held_in(run: &Record, node: usize, kind: PlaceKind) -> Result<u64, AllocError>
    ensures ok { IfOk result (λ count. count ≡ held_in run.now node kind) }
    ensures err { OnErr result (2 ^ 64 ≤ held_in run.now node kind) }
{
    let mut count = 0u64;
    for held in run.held.as_slice() {
        if usize::from(held.node) == node && kind.has(held.place) {
            let Some(more) = count.checked_add(held.numbers.len() as u64) else {
                return Err(AllocError);
            };
            count = more;
        }
    }
    Ok(count)
}

/// Appends `node NAME ADDR`, or `bridge NAME` where there is no address.
fn push_name(out: &mut String, name: &str, addr: Option<Addr>) -> Result<(), AllocError>
    ensures { OnOk result (string_bytes out.new ≡ string_bytes out.old ++ join_with_byte 32 (name_words name.now addr)) }
{
    match addr {
        Some(addr) => {
            begin_line(out, "node")?;
            push_word(out, name)?;
            push_count(out, u64::from(addr.get()))
        }
        None => {
            begin_line(out, "bridge")?;
            push_word(out, name)
        }
    }
}

/// Appends the words of a node's line that state the node.
fn push_stated(out: &mut String, node: &SceneNode) -> Result<(), AllocError>
    ensures { OnOk result (string_bytes out.new ≡ string_bytes out.old ++ (join_with_byte 32 (name_words node.now.name node.now.addr) ++ 32 ∷ (codes "buffers" ++ 32 ∷ decimal node.now.buffers))) }
{
    push_name(out, node.name.as_str(), node.addr)?;
    push_counted(out, "buffers", u64::from(node.buffers))
}

/// Appends the counts of a node's pool, inbox and lanes.
fn push_queued(out: &mut String, run: &Record, place: usize) -> Result<(), AllocError>
    ensures { OnOk result (string_bytes out.new ≡ string_bytes out.old ++ 32 ∷ join_with_byte 32 (codes "free" ∷ decimal (held_in run.now place PlaceKind.Pool) ∷ codes "inbox" ∷ decimal (held_in run.now place PlaceKind.Inbox) ∷ codes "lane" ∷ decimal (held_in run.now place PlaceKind.Lane) ∷ [])) }
{
    push_counted(out, "free", held_in(run, place, PlaceKind::Pool)?)?;
    push_counted(out, "inbox", held_in(run, place, PlaceKind::Inbox)?)?;
    push_counted(out, "lane", held_in(run, place, PlaceKind::Lane)?)
}

/// Appends the counts of a node's router, interfaces and applications.
fn push_kept(out: &mut String, run: &Record, place: usize) -> Result<(), AllocError>
    ensures { OnOk result (string_bytes out.new ≡ string_bytes out.old ++ 32 ∷ join_with_byte 32 (codes "router" ∷ decimal (held_in run.now place PlaceKind.Router) ∷ codes "iface" ∷ decimal (held_in run.now place PlaceKind.Iface) ∷ codes "app" ∷ decimal (held_in run.now place PlaceKind.App) ∷ [])) }
{
    push_counted(out, "router", held_in(run, place, PlaceKind::Router)?)?;
    push_counted(out, "iface", held_in(run, place, PlaceKind::Iface)?)?;
    push_counted(out, "app", held_in(run, place, PlaceKind::App)?)
}

/// Appends the line of the node or bridge at this place.
fn push_node(
    out: &mut String,
    run: &Record,
    place: usize,
    node: &SceneNode,
) -> Result<(), AllocError>
    ensures { OnOk result (string_bytes out.new ≡ string_bytes out.old ++ ended_line (node_line run.now place node.now)) }
{
    push_stated(out, node)?;
    push_queued(out, run, place)?;
    push_kept(out, run, place)?;
    end_line(out)?;
    Ok(())
}

/// Appends the lines of all nodes and bridges.
pub(crate) fn push_nodes(
    out: &mut String,
    nodes: &[SceneNode],
    run: &Record,
) -> Result<(), AllocError>
    ensures { OnOk result (string_bytes out.new ≡ string_bytes out.old ++ text_of (map (λ node. node_line run.now node.0 node.1) (enumerate_from 0 nodes.now))) }
{
    for (place, node) in nodes.iter().enumerate() {
        push_node(out, run, place, node)?;
    }
    Ok(())
}
