//! The memory and the queues of each node.

ghost use Rattle.std.specs.Prelude.{◌≡◌, ◌<◌, ◌≤◌, IfOk, length, map, vec_capacity};
ghost use Rattle.std.specs.List.{AllByRecursion};
ghost use Rattle.csp_inbox.specs.Passes.{opening_pass};
ghost use Rattle.csp_opening.specs.Opened.{AreLanes, AreNodesWith, AreWired, CanLeave, IsNodeOf, IsRoomy, room_with};

use crate::bases::Base;
use crate::lanes::Lanes;
use crate::mails::Mail;
use csp_arena::RegionToken;
use csp_lists::INBOX_QUEUES;
use csp_topology::{NodePlan, Wire};
use std::alloc::{AllocError, Global};
use std::collections::VecDeque;
use std::sync::Wait;

/// A node of whose memory and queues nothing was handed out yet. It must be spent by `leave_nodes`, or taken apart.
pub struct Node {
    /// Its memory and its pool.
    pub(crate) base: Base,
    /// Room for the numbers of its buffers.
    pub(crate) numbers: Vec<u16>,
    /// Its inbox.
    pub(crate) mail: Mail,
    /// Its lanes.
    pub(crate) lanes: Lanes,
}

impl Node {
    /// Opens a node with this plan, with the lanes of these wires.
    fn open<R: Wait>(
        rt: &R,
        alloc: Global,
        node: &NodePlan,
        wires: &[Wire],
    ) -> Result<Node, AllocError>
        requires node { IsRoomy node.now }
        requires few { length wires.now < 256 }
        requires rooms { AllByRecursion (λ w. 0 < w.room) wires.now }
        ensures { IfOk result (IsNodeOf node.now wires.now) }
    {
        let numbers = Vec::with_capacity(alloc, usize::from(node.buffers))?;
        let base = Base::open(rt, alloc, node.buffers, room_in(node, wires))?;
        let region = base.store.token();
        match open_queues(rt, alloc, &region, node.inbox, wires) {
            Ok((mail, lanes)) => Ok(Node {
                base,
                numbers,
                mail,
                lanes,
            }),
            Err(error) => {
                base.leave(rt);
                Err(error)
            }
        }
    }

    /// Closes it.
    fn leave<R: Wait>(self, rt: &R)
        requires { CanLeave self }
    {
        let Node {
            base,
            numbers: _,
            mail,
            lanes,
        } = self;
        lanes.leave(rt);
        mail.leave(rt);
        base.leave(rt);
    }
}

/// Opens an inbox with this room, and the lanes of these wires.
fn open_queues<R: Wait>(
    rt: &R,
    alloc: Global,
    region: &RegionToken,
    room: u16,
    wires: &[Wire],
) -> Result<(Mail, Lanes), AllocError>
    requires some { 0 < room }
    requires rooms { AllByRecursion (λ w. 0 < w.room) wires.now }
    ensures inbox { IfOk result (λ r. r.0.inbox.room ≡ room) }
    ensures pass { IfOk result (λ r. r.0.pass ≡ opening_pass r.0.inbox region.now.name) }
    ensures left { IfOk result (λ r. r.0.room ≡ room) }
    ensures lanes { IfOk result (λ r. AreLanes region.now.name wires.now r.1) }
{
    let mail = Mail::open(alloc, region, room)?;
    match Lanes::open(rt, alloc, region, wires) {
        Ok(lanes) => Ok((mail, lanes)),
        Err(error) => {
            mail.leave(rt);
            Err(error)
        }
    }
}

/// For how many buffers there is room in all queues of a node.
fn room_in(node: &NodePlan, wires: &[Wire]) -> usize
    requires { length wires.now < 256 }
    ensures { result ≡ room_with node.now wires.now }
{
    let mut room = usize::from(node.buffers) + INBOX_QUEUES * usize::from(node.inbox);
    for wire in wires {
        room += usize::from(wire.room);
    }
    room
}

/// Opens the nodes with these plans, each with the lanes of its wires, in a list with just the room for them.
pub fn open_nodes<R: Wait>(
    rt: &R,
    alloc: Global,
    nodes: &[NodePlan],
    wires: &[Vec<Wire>],
) -> Result<Vec<Node>, AllocError>
    requires { AreWired nodes.now wires.now }
    ensures nodes { IfOk result (λ r. AreNodesWith nodes.now (map (λ ws. ws.items) wires.now) r.items) }
    ensures room { IfOk result (λ r. vec_capacity r ≡ length nodes.now) }
{
    let mut opened = Vec::with_capacity(alloc, nodes.len())?;
    for (place, node) in nodes.iter().enumerate() {
        match Node::open(rt, alloc, node, &wires[place]) {
            Ok(node) => opened.push_reserved(node),
            Err(error) => {
                leave_nodes(rt, opened);
                return Err(error);
            }
        }
    }
    Ok(opened)
}

/// Closes nodes.
pub fn leave_nodes<R: Wait>(rt: &R, nodes: Vec<Node>)
    requires { AllByRecursion CanLeave nodes.items }
{
    let mut nodes = VecDeque::from_vec(nodes);
    while let Some(node) = nodes.pop_front() {
        node.leave(rt);
    }
    nodes.destroy_empty();
}
