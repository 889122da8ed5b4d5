//! What the lines read so far state.

ghost use Rattle.std.specs.Prelude.{◌≡◌, ◌≤◌, ◌+◌, [], map, Ok, Err, IfOk, OnOk, length};
ghost use Rattle.csp_scene.specs.Ranges.{IsScene};
ghost use Rattle.csp_scene.specs.Links.{links_at};
ghost use Rattle.csp_scene.specs.Sketch.{no_sketch};
ghost use Rattle.csp_scene.specs.State.{state, is_joined, are_joined, finish};
ghost use Rattle.csp_scene.specs.Kept.{AreLinksAfter, IsSketch, Fits, FitsShape, Judged};

use crate::arguments::number_at;
use crate::limits::BRIDGE_LINKS;
use crate::links::LinkSketch;
use crate::naming::iface_count;
use crate::nodes::{new_bridge, new_node};
use crate::refusal::SceneKind;
use crate::scenario::{Scene, SceneLink, SceneNode, Schedule};
use crate::steps::{
    bind_step, blob_step, burst_step, close_step, collect_step, connect_step, recv_step, wait_step,
};
use crate::table::{Form, Part};
use csp_app::Step;
use csp_link::FaultKind;
use std::alloc::{AllocError, Global};
use std::collections::VecDeque;
use std::marker::Model;

/// Why a line was not taken in.
#[derive(Clone, Copy)]
pub(crate) enum LineError {
    /// What is wrong with it.
    Kind(SceneKind),
    /// There was not enough memory.
    NoMemory,
}

/// A scene in the making.
#[derive(Drop)]
pub(crate) struct Sketch {
    pub(crate) until: Option<u32>,
    pub(crate) schedule: Option<Schedule>,
    pub(crate) nodes: Vec<SceneNode>,
    pub(crate) links: Vec<LinkSketch>,
    pub(crate) host: Option<usize>,
    pub(crate) tuned: Vec<usize>,
}

impl Model for Sketch {
    ghost use Rattle.std.specs.Prelude.{option_map};
    ghost use Rattle.std.specs.Coded.{codes};
    ghost use Rattle.csp_route.specs.Codes.{routes_code};
    ghost use Rattle.csp_scene.specs.Scene.{plain_schedule};
    ghost use Rattle.csp_scene.specs.Sketch.{PlainSketch};

    ghost Value = { PlainSketch };

    ghost coded = { Prim.hlevel (codes, routes_code) };

    ghost view = { λ sketch. record {
      until = sketch.until;
      schedule = option_map plain_schedule sketch.schedule;
      nodes = sketch.nodes.items;
      links = sketch.links.items;
      host = sketch.host;
      tuned = sketch.tuned.items;
    } };
}

/// Whether a node has its links: a bridge has two.
fn is_joined(links: &[LinkSketch], place: usize, node: &SceneNode) -> bool
    ensures { result ≡ is_joined links.now place node.now }
{
    node.addr.is_some() || iface_count(links, place) == BRIDGE_LINKS
}

/// Whether each bridge has its links.
fn are_joined(links: &[LinkSketch], nodes: &[SceneNode]) -> bool
    ensures { result ≡ are_joined links.now 0 nodes.now }
{
    for (place, node) in nodes.iter().enumerate() {
        if !is_joined(links, place, node) {
            return false;
        }
    }
    true
}

/// The links themselves.
fn whole_links(alloc: Global, links: Vec<LinkSketch>) -> Result<Vec<SceneLink>, AllocError>
    ensures { IfOk result (λ whole. whole.items ≡ links.items) }
{
    let mut whole = Vec::new(alloc);
    let mut links = VecDeque::from_vec(links);
    while let Some(link) = links.pop_front() {
        whole.push(link.into_link())?;
    }
    Ok(whole)
}

impl Sketch {
    /// Before the first line.
    pub(crate) fn new(alloc: Global) -> Sketch
        ensures value { result ≡ no_sketch }
        ensures kept { IsSketch result }
    {
        Sketch {
            until: None,
            schedule: None,
            nodes: Vec::new(alloc),
            links: Vec::new(alloc),
            host: None,
            tuned: Vec::new(alloc),
        }
    }

    /// What a line of a form and of one of its shapes adds.
    #[tactic(auto, using(crate::proofs::Fitting::hub_words))]
    pub(crate) fn state(
        &mut self,
        alloc: Global,
        form: Form,
        shape: &[Part],
        args: &[&[u8]],
    ) -> Result<(), LineError>
        requires kept { IsSketch self.old }
        requires fits { Fits form (map (λ word. word.now) args.now) }
        requires shape { FitsShape form shape.now (map (λ word. word.now) args.now) }
        ensures answer { Judged result self.new (state form shape.now self.old (map (λ word. word.now) args.now)) }
        ensures kept { OnOk result (IsSketch self.new) }
    {
        match form {
            Form::Until => self.state_until(args),
            Form::Rounds => self.state_schedule(Schedule::Rounds),
            Form::Shuffle => self.state_shuffle(args),
            Form::Moves => self.state_moves(alloc, &args[1..]),
            Form::Node => self.state_node(new_node(alloc, shape, args)),
            Form::Bridge => self.state_node(new_bridge(alloc, shape, args)),
            Form::Rdp => self.state_rdp(args),
            Form::KissLink => self.state_kiss_link(alloc, shape, args),
            Form::CanLink => self.state_can_link(alloc, shape, args),
            Form::Hub => self.state_hub(alloc, args),
            Form::Route => self.state_route(alloc, args),
            Form::Lose => self.state_fault(form, args, FaultKind::Lose),
            Form::Repeat => {
                let kind = FaultKind::Repeat(number_at(Form::Repeat, args, 4) as u8);
                self.state_fault(form, args, kind)
            }
            Form::Delay => {
                let kind = FaultKind::Delay(number_at(Form::Delay, args, 4));
                self.state_fault(form, args, kind)
            }
            Form::Flip => {
                let kind = FaultKind::Flip(number_at(Form::Flip, args, 4));
                self.state_fault(form, args, kind)
            }
            Form::HubLose => self.state_hub_fault(form, args, FaultKind::Lose),
            Form::HubRepeat => {
                let kind = FaultKind::Repeat(number_at(Form::HubRepeat, args, 4) as u8);
                self.state_hub_fault(form, args, kind)
            }
            Form::HubDelay => {
                let kind = FaultKind::Delay(number_at(Form::HubDelay, args, 4));
                self.state_hub_fault(form, args, kind)
            }
            Form::HubFlip => {
                let kind = FaultKind::Flip(number_at(Form::HubFlip, args, 4));
                self.state_hub_fault(form, args, kind)
            }
            Form::App => self.state_app(alloc, args),
            Form::Take => self.state_step(&Step::Take),
            Form::Give => self.state_step(&Step::Give),
            Form::Bind => self.state_step(&bind_step(shape, args)),
            Form::Connect => self.state_step(&connect_step(shape, args)),
            Form::Send => self.state_send(alloc, args),
            Form::Burst => self.state_step(&burst_step(args)),
            Form::Blob => self.state_step(&blob_step(args)),
            Form::Raw => self.state_raw(alloc, args),
            Form::Recv => self.state_step(&recv_step(shape, args)),
            Form::Collect => self.state_step(&collect_step(shape, args)),
            Form::Close => self.state_step(&close_step(args)),
            Form::Wait => self.state_step(&wait_step(args)),
        }
    }

    /// The scene, once the last line is read.
    pub(crate) fn finish(self, alloc: Global) -> Result<Scene, LineError>
        requires { IsSketch self }
        ensures value { IfOk result (λ scene. finish self ≡ Ok scene) }
        ensures kind { (kind : SceneKind) → result ≡ Err (LineError.Kind kind) → finish self ≡ Err kind }
        ensures kept { IfOk result IsScene }
        ensures ends { IfOk result (λ scene. AreLinksAfter (length scene.nodes) [] scene.links) }
    {
        let Some(until) = self.until else {
            return Err(LineError::Kind(SceneKind::Missing));
        };
        if !are_joined(&self.links, &self.nodes) {
            return Err(LineError::Kind(SceneKind::Missing));
        }
        match whole_links(alloc, self.links) {
            Ok(links) => Ok(Scene {
                until,
                schedule: self.schedule.unwrap_or(Schedule::Rounds),
                nodes: self.nodes,
                links,
            }),
            Err(_) => Err(LineError::NoMemory),
        }
    }
}
