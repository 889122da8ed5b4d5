//! What `until`, `node`, `bridge`, `app` and step lines state.

ghost use Rattle.std.specs.Prelude.{◌≡◌, ◌<◌, ◌≤◌, ◌+◌, ◌||◌, ◌≢◌, false, [], Some, None, map, IsTrue, OnOk, Ok, length};
ghost use Rattle.std.specs.List.{list_any};
ghost use Rattle.std.specs.FinMap as finite;
ghost use Rattle.csp_text.specs.Names.{is_name};
ghost use Rattle.csp_app.specs.Placing.{plain_step};
ghost use Rattle.csp_scene.specs.Ranges.{IsStep, IsNode, IsApp};
ghost use Rattle.csp_scene.specs.Links.{node_at};
ghost use Rattle.csp_scene.specs.Sharing.{excludes, AreUnmixed};
ghost use Rattle.csp_scene.specs.Sketch.{with_node};
ghost use Rattle.csp_scene.specs.Nodes.{state_until, new_node, new_bridge, may_add_node, state_node, new_app, may_add_app, with_app_at, state_app, last_app, with_step_at, may_add_step, state_step};
ghost use Rattle.csp_scene.specs.Steps.{send_step, raw_step};
ghost use Rattle.csp_scene.specs.Kept.{IsSketch, Fits, FitsShape, Judged};

use crate::arguments::{bytes_at, name_at, number_at, setting};
use crate::limits::{DEFAULT_INBOX, DEFAULT_SEED, MAX_NODES, MAX_STEPS};
use crate::links::LinkSketch;
use crate::naming::{is_addr_taken, is_called, is_link_name, is_name_taken, router_named};
use crate::refusal::SceneKind;
use crate::scenario::{SceneApp, SceneNode};
use crate::sharing::is_excluded;
use crate::sketch::{LineError, Sketch};
use crate::steps::{raw_step, send_step};
use crate::table::{Form, Keyword, Part};
use csp_app::{Script, Step};
use csp_base::{Addr, MAX_APPS, Name};
use csp_rdp_header::Options;
use csp_route::Table;
use std::alloc::Global;

/// The node that a `node` line states.
pub(crate) fn new_node(alloc: Global, shape: &[Part], args: &[&[u8]]) -> SceneNode
    requires fits { Fits Form.Node (map (λ word. word.now) args.now) }
    requires shape { FitsShape Form.Node shape.now (map (λ word. word.now) args.now) }
    ensures value { result ≡ new_node shape.now (map (λ word. word.now) args.now) }
    ensures kept { IsNode result }
{
    let Some(addr) = Addr::new(number_at(Form::Node, args, 1) as u8) else {
        unreachable!();
    };
    SceneNode {
        name: name_at(Form::Node, args, 0),
        addr: Some(addr),
        buffers: number_at(Form::Node, args, 3) as u16,
        seed: setting(Form::Node, Keyword::Seed, shape, args).unwrap_or(DEFAULT_SEED) as u16,
        inbox: setting(Form::Node, Keyword::Inbox, shape, args).unwrap_or(DEFAULT_INBOX) as u16,
        options: Options::usual(),
        routes: Table::new(),
        apps: Vec::new(alloc),
    }
}

/// The bridge that a `bridge` line states.
pub(crate) fn new_bridge(alloc: Global, shape: &[Part], args: &[&[u8]]) -> SceneNode
    requires fits { Fits Form.Bridge (map (λ word. word.now) args.now) }
    requires shape { FitsShape Form.Bridge shape.now (map (λ word. word.now) args.now) }
    ensures value { result ≡ new_bridge shape.now (map (λ word. word.now) args.now) }
    ensures kept { IsNode result }
{
    SceneNode {
        name: name_at(Form::Bridge, args, 0),
        addr: None,
        buffers: number_at(Form::Bridge, args, 2) as u16,
        seed: DEFAULT_SEED as u16,
        inbox: setting(Form::Bridge, Keyword::Inbox, shape, args).unwrap_or(DEFAULT_INBOX) as u16,
        options: Options::usual(),
        routes: Table::new(),
        apps: Vec::new(alloc),
    }
}

/// Whether an application may join these: Twice where its name is that of one of them or of a
/// link, then Full.
fn may_add_app(apps: &[SceneApp], links: &[LinkSketch], name: &Name) -> Result<(), SceneKind>
    ensures value { result ≡ may_add_app apps.now links.now name.now.bytes }
    ensures room { OnOk result (length apps.now < MAX_APPS) }
{
    if is_called(apps, name.as_bytes()) || is_link_name(links, name.as_bytes()) {
        return Err(SceneKind::Twice);
    }
    if apps.len() >= MAX_APPS {
        return Err(SceneKind::Full);
    }
    Ok(())
}

/// Whether a step may join these: Twice where it never stands together with one of them, then
/// Full.
fn may_add_step(script: &Script, step: &Step<'_>) -> Result<(), SceneKind>
    requires unmixed { AreUnmixed script.now }
    ensures value { result ≡ may_add_step script.now (plain_step step.now) }
    ensures apart { OnOk result (list_any (excludes (plain_step step.now)) script.now ≡ false) }
    ensures room { OnOk result (length script.now < MAX_STEPS) }
{
    if is_excluded(script, step) {
        return Err(SceneKind::Twice);
    }
    if script.len() >= MAX_STEPS {
        return Err(SceneKind::Full);
    }
    Ok(())
}

impl Sketch {
    /// An `until` line.
    pub(crate) fn state_until(&mut self, args: &[&[u8]]) -> Result<(), LineError>
        requires kept { IsSketch self.old }
        requires fits { Fits Form.Until (map (λ word. word.now) args.now) }
        ensures answer { Judged result self.new (state_until self.old (map (λ word. word.now) args.now)) }
        ensures kept { OnOk result (IsSketch self.new) }
    {
        if self.until.is_some() {
            return Err(LineError::Kind(SceneKind::Twice));
        }
        self.until = Some(number_at(Form::Until, args, 0));
        Ok(())
    }

    /// Whether a node may be added: Twice where its name or its address is that of another, then
    /// Full.
    fn may_add_node(&self, node: &SceneNode) -> Result<(), SceneKind>
        ensures value { result ≡ may_add_node self.now node.now.name node.now.addr }
        ensures room { OnOk result (length self.now.nodes < MAX_NODES) }
    {
        if is_name_taken(&self.nodes, &self.links, node.name.as_bytes())
            || is_addr_taken(&self.nodes, node.addr)
        {
            return Err(SceneKind::Twice);
        }
        if self.nodes.len() >= MAX_NODES {
            return Err(SceneKind::Full);
        }
        Ok(())
    }

    fn push_node(&mut self, node: SceneNode) -> Result<(), LineError>
        requires kept { IsSketch self.old }
        requires node { IsNode node }
        requires fresh { node.routes ≡ finite.empty }
        requires room { length self.old.nodes < MAX_NODES }
        ensures answer { Judged result self.new (Ok (with_node node self.old)) }
        ensures kept { OnOk result (IsSketch self.new) }
    {
        let Ok(()) = self.nodes.push(node) else {
            return Err(LineError::NoMemory);
        };
        Ok(())
    }

    /// A `node` or `bridge` line.
    pub(crate) fn state_node(&mut self, node: SceneNode) -> Result<(), LineError>
        requires kept { IsSketch self.old }
        requires node { IsNode node }
        requires fresh { node.routes ≡ finite.empty }
        ensures answer { Judged result self.new (state_node self.old node) }
        ensures kept { OnOk result (IsSketch self.new) }
    {
        match self.may_add_node(&node) {
            Ok(()) => self.push_node(node),
            Err(kind) => Err(LineError::Kind(kind)),
        }
    }

    fn push_app(&mut self, place: usize, app: SceneApp) -> Result<(), LineError>
        requires kept { IsSketch self.old }
        requires node { place < length self.old.nodes }
        requires router { (node_at self.old.nodes place).addr ≢ None }
        requires app { IsApp app }
        requires room { length (node_at self.old.nodes place).apps < MAX_APPS }
        ensures answer { Judged result self.new (Ok (with_app_at place app self.old)) }
        ensures kept { OnOk result (IsSketch self.new) }
    {
        let Ok(()) = self.nodes[place].apps.push(app) else {
            return Err(LineError::NoMemory);
        };
        self.host = Some(place);
        Ok(())
    }

    /// An `app` line.
    pub(crate) fn state_app(&mut self, alloc: Global, args: &[&[u8]]) -> Result<(), LineError>
        requires kept { IsSketch self.old }
        requires fits { Fits Form.App (map (λ word. word.now) args.now) }
        ensures answer { Judged result self.new (state_app self.old (map (λ word. word.now) args.now)) }
        ensures kept { OnOk result (IsSketch self.new) }
    {
        let name = name_at(Form::App, args, 1);
        let Some(place) = router_named(&self.nodes, name_at(Form::App, args, 0).as_bytes()) else {
            return Err(LineError::Kind(SceneKind::Unknown));
        };
        match may_add_app(&self.nodes[place].apps, &self.links, &name) {
            Ok(()) => {
                let script = Script::new(alloc);
                self.push_app(place, SceneApp { name, script })
            }
            Err(kind) => Err(LineError::Kind(kind)),
        }
    }

    #[tactic(auto, using(crate::proofs::Sketches::step_of_packet))]
    fn push_step(&mut self, place: usize, step: &Step<'_>) -> Result<(), LineError>
        requires kept { IsSketch self.old }
        requires node { place < length self.old.nodes }
        requires app { 1 ≤ length (node_at self.old.nodes place).apps }
        requires step { IsStep (plain_step step.now) }
        requires apart { list_any (excludes (plain_step step.now)) (last_app (node_at self.old.nodes place)).steps ≡ false }
        requires room { length (last_app (node_at self.old.nodes place)).steps < MAX_STEPS }
        ensures answer { Judged result self.new (Ok (with_step_at place (plain_step step.now) self.old)) }
        ensures kept { OnOk result (IsSketch self.new) }
    {
        let last = self.nodes[place].apps.len() - 1;
        let Ok(()) = self.nodes[place].apps[last].script.push(step) else {
            return Err(LineError::NoMemory);
        };
        Ok(())
    }

    /// A step line.
    pub(crate) fn state_step(&mut self, step: &Step<'_>) -> Result<(), LineError>
        requires kept { IsSketch self.old }
        requires step { IsStep (plain_step step.now) }
        ensures answer { Judged result self.new (state_step self.old (plain_step step.now)) }
        ensures kept { OnOk result (IsSketch self.new) }
    {
        let Some(place) = self.host else {
            return Err(LineError::Kind(SceneKind::Place));
        };
        let apps = &self.nodes[place].apps;
        match may_add_step(&apps[apps.len() - 1].script, step) {
            Ok(()) => self.push_step(place, step),
            Err(kind) => Err(LineError::Kind(kind)),
        }
    }

    /// A `send` line.
    #[inline(never)]
    pub(crate) fn state_send(&mut self, alloc: Global, args: &[&[u8]]) -> Result<(), LineError>
        requires kept { IsSketch self.old }
        requires fits { Fits Form.Send (map (λ word. word.now) args.now) }
        ensures answer { Judged result self.new (state_step self.old (send_step (map (λ word. word.now) args.now))) }
        ensures kept { OnOk result (IsSketch self.new) }
    {
        match bytes_at(alloc, args, 1) {
            Ok(bytes) => self.state_step(&send_step(args, &bytes)),
            Err(_) => Err(LineError::NoMemory),
        }
    }

    /// A `raw` line.
    #[inline(never)]
    pub(crate) fn state_raw(&mut self, alloc: Global, args: &[&[u8]]) -> Result<(), LineError>
        requires kept { IsSketch self.old }
        requires fits { Fits Form.Raw (map (λ word. word.now) args.now) }
        ensures answer { Judged result self.new (state_step self.old (raw_step (map (λ word. word.now) args.now))) }
        ensures kept { OnOk result (IsSketch self.new) }
    {
        match bytes_at(alloc, args, 1) {
            Ok(bytes) => self.state_step(&raw_step(args, &bytes)),
            Err(_) => Err(LineError::NoMemory),
        }
    }
}
