//! What `fault` lines state.

ghost use Rattle.std.specs.Prelude.{ℕ, ◌≡◌, ◌<◌, ◌≤◌, Some, IfSome, map, IsTrue, OnOk, Ok, length};
ghost use Rattle.std.specs.List.{list_any};
ghost use Rattle.csp_scene.specs.Ranges.{IsHarm, IsPlanned};
ghost use Rattle.csp_scene.specs.Links.{fault_count};
ghost use Rattle.csp_scene.specs.Faults.{direction_of, planned, link_at, with_fault, with_fault_at, may_add_fault, state_fault_at, state_fault, end_named, state_fault_from, state_hub_fault_at, state_hub_fault};
ghost use Rattle.csp_scene.specs.Naming.{link_named, node_named};
ghost use Rattle.csp_scene.specs.Arguments.{word_at};
ghost use Rattle.csp_scene.specs.Kept.{IsSketch, Fits, Judged, part_at};

use crate::arguments::{number_at, word_at};
use crate::limits::{LAST_FRAME, MAX_FAULTS};
use crate::links::LinkSketch;
use crate::naming::{link_named, node_named};
use crate::refusal::SceneKind;
use crate::scenario::SceneNode;
use crate::sketch::{LineError, Sketch};
use crate::table::{Form, Keyword, Part};
use csp_link::{Fault, FaultKind};

/// The direction by its word.
fn direction_of(word: &[u8]) -> u8
    ensures value { result ≡ direction_of word.now }
    ensures range { result < 2 }
{
    if word == Keyword::Ba.text() { 1 } else { 0 }
}

/// The fault of a direction of a link, or of the frames from an end of a hub, that a line of a form
/// states, by what it does.
fn planned(form: Form, dir: u8, args: &[&[u8]], kind: FaultKind) -> Fault
    requires fits { Fits form (map (λ word. word.now) args.now) }
    requires frame { part_at form 2 ≡ Part.Number 1 LAST_FRAME }
    requires harm { IsHarm kind }
    ensures value { result ≡ planned dir (map (λ word. word.now) args.now) kind }
    ensures kept { (ends : ℕ) → dir < ends → IsPlanned ends result }
{
    Fault {
        dir,
        frame: u64::from(number_at(form, args, 2)),
        kind,
    }
}

/// How many faults all links have together.
fn fault_count(links: &[LinkSketch]) -> usize
    requires { fault_count links.now ≤ MAX_FAULTS }
    ensures { result ≡ fault_count links.now }
{
    let mut count = 0;
    for link in links {
        count += link.faults();
    }
    count
}

/// The number of a link's end at the node of this name.
fn end_named(nodes: &[SceneNode], link: &LinkSketch, name: &[u8]) -> Option<u8>
    ensures value { result ≡ end_named name.now nodes.now link.now }
    ensures inside { IfSome result (λ end. end < length link.now.ends) }
{
    let node = node_named(nodes, name)?;
    link.end_at(node)
}

impl Sketch {
    /// Whether a fault may join a link: Twice where one of the same direction, frame and kind
    /// stands, then Full.
    fn may_add_fault(&self, place: usize, fault: &Fault) -> Result<(), SceneKind>
        requires link { place < length self.now.links }
        requires few { fault_count self.now.links ≤ MAX_FAULTS }
        ensures value { result ≡ may_add_fault self.now.links place fault.now }
        ensures room { OnOk result (fault_count self.now.links < MAX_FAULTS) }
    {
        if self.links[place].has(fault) {
            return Err(SceneKind::Twice);
        }
        if fault_count(&self.links) >= MAX_FAULTS {
            return Err(SceneKind::Full);
        }
        Ok(())
    }

    fn push_fault(&mut self, place: usize, fault: Fault) -> Result<(), LineError>
        requires kept { IsSketch self.old }
        requires link { place < length self.old.links }
        requires room { fault_count self.old.links < MAX_FAULTS }
        requires fault { IsPlanned (length (link_at self.old.links place).ends) fault }
        ensures answer { Judged result self.new (Ok (with_fault_at place fault self.old)) }
        ensures kept { OnOk result (IsSketch self.new) }
    {
        let Ok(()) = self.links[place].add(fault) else {
            return Err(LineError::NoMemory);
        };
        Ok(())
    }

    /// A `fault` line of the link in a place, by the fault that it states.
    fn state_fault_at(&mut self, place: usize, fault: Fault) -> Result<(), LineError>
        requires kept { IsSketch self.old }
        requires link { place < length self.old.links }
        requires fault { IsPlanned (length (link_at self.old.links place).ends) fault }
        ensures answer { Judged result self.new (state_fault_at self.old fault (Some place)) }
        ensures kept { OnOk result (IsSketch self.new) }
    {
        match self.may_add_fault(place, &fault) {
            Ok(()) => self.push_fault(place, fault),
            Err(kind) => Err(LineError::Kind(kind)),
        }
    }

    /// A `fault` line of a link of two ends, by what the fault does.
    pub(crate) fn state_fault(
        &mut self,
        form: Form,
        args: &[&[u8]],
        kind: FaultKind,
    ) -> Result<(), LineError>
        requires kept { IsSketch self.old }
        requires fits { Fits form (map (λ word. word.now) args.now) }
        requires frame { part_at form 2 ≡ Part.Number 1 LAST_FRAME }
        requires harm { IsHarm kind }
        ensures answer { Judged result self.new (state_fault self.old (map (λ word. word.now) args.now) kind) }
        ensures kept { OnOk result (IsSketch self.new) }
    {
        let Some(place) = link_named(&self.links, word_at(args, 0)) else {
            return Err(LineError::Kind(SceneKind::Unknown));
        };
        let fault = planned(form, direction_of(word_at(args, 1)), args, kind);
        self.state_fault_at(place, fault)
    }

    /// A `fault` line of a hub, by what the fault does.
    pub(crate) fn state_hub_fault(
        &mut self,
        form: Form,
        args: &[&[u8]],
        kind: FaultKind,
    ) -> Result<(), LineError>
        requires kept { IsSketch self.old }
        requires fits { Fits form (map (λ word. word.now) args.now) }
        requires frame { part_at form 2 ≡ Part.Number 1 LAST_FRAME }
        requires harm { IsHarm kind }
        ensures answer { Judged result self.new (state_hub_fault self.old (map (λ word. word.now) args.now) kind) }
        ensures kept { OnOk result (IsSketch self.new) }
    {
        let Some(place) = link_named(&self.links, word_at(args, 0)) else {
            return Err(LineError::Kind(SceneKind::Unknown));
        };
        let Some(end) = end_named(&self.nodes, &self.links[place], word_at(args, 1)) else {
            return Err(LineError::Kind(SceneKind::Unknown));
        };
        self.state_fault_at(place, planned(form, end, args, kind))
    }
}
