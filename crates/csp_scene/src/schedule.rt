//! What `schedule` lines state.

ghost use Rattle.std.specs.Prelude.{◌≡◌, ◌≤◌, ◌<◌, ◌+◌, ◌++◌, [], Some, None, true, false, map, IsTrue, IfSome, OnOk, Ok, Err, length, is_some};
ghost use Rattle.std.specs.List.{AllByRecursion, list_all, filter_map};
ghost use Rattle.csp_scene.specs.Ranges.{IsNode, IsMove, IsSchedule};
ghost use Rattle.csp_scene.specs.Scene.{shuffled, plain_schedule};
ghost use Rattle.csp_scene.specs.Arguments.{number_at};
ghost use Rattle.csp_scene.specs.Moves.{first_some, whole_move, owned_move, move_of};
ghost use Rattle.csp_scene.specs.Schedule.{state_schedule, add_moves, state_moves};
ghost use Rattle.csp_scene.specs.Kept.{IsSketch, Fits, Judged};

use crate::arguments::number_at;
use crate::limits::{MAX_LINKS, MAX_NODES};
use crate::links::LinkSketch;
use crate::naming::{app_named, iface_named, link_named, node_named};
use crate::refusal::SceneKind;
use crate::scenario::{Move, SceneNode, Schedule};
use crate::sketch::{LineError, Sketch};
use crate::step_words::{has_dot, owned_of, owner_of};
use crate::table::Form;
use csp_log::Who;
use std::alloc::Global;

/// The node, bridge or link of this name.
fn whole_move(nodes: &[SceneNode], links: &[LinkSketch], name: &[u8]) -> Option<Move>
    requires few { length nodes.now ≤ MAX_NODES }
    requires few_links { length links.now ≤ MAX_LINKS }
    ensures value { result ≡ whole_move nodes.now links.now name.now }
    ensures kept { IfSome result (IsMove nodes.now links.now) }
{
    if let Some(place) = node_named(nodes, name) {
        return Some(Move::Turn(nodes[place].router_or_bridge(place as u8)));
    }
    match link_named(links, name) {
        Some(place) => Some(Move::Turn(Who::Link(place as u8))),
        None => None,
    }
}

/// The interface of a node on the link of this name, or its application of this name.
fn owned_move(nodes: &[SceneNode], links: &[LinkSketch], place: usize, name: &[u8]) -> Option<Move>
    requires nodes { AllByRecursion IsNode nodes.now }
    requires few { length nodes.now ≤ MAX_NODES }
    requires few_links { length links.now ≤ MAX_LINKS }
    requires place { place < length nodes.now }
    ensures value { result ≡ owned_move nodes.now links.now name.now (Some place) }
    ensures kept { IfSome result (IsMove nodes.now links.now) }
{
    if let Some(iface) = iface_named(links, place, name) {
        return Some(Move::Turn(Who::Iface(place as u8, iface as u8)));
    }
    let node = &nodes[place];
    match app_named(&node.apps, name) {
        Some(app) => Some(Move::Turn(Who::App(place as u8, app as u8))),
        None => None,
    }
}

/// The party that a step word names, or a tick.
fn move_of(nodes: &[SceneNode], links: &[LinkSketch], word: &[u8]) -> Option<Move>
    requires nodes { AllByRecursion IsNode nodes.now }
    requires few { length nodes.now ≤ MAX_NODES }
    requires few_links { length links.now ≤ MAX_LINKS }
    ensures value { result ≡ move_of nodes.now links.now word.now }
    ensures kept { IfSome result (IsMove nodes.now links.now) }
{
    if word == b"tick".as_slice() {
        return Some(Move::Tick);
    }
    if !has_dot(word) {
        return whole_move(nodes, links, word);
    }
    match node_named(nodes, owner_of(word)) {
        Some(place) => owned_move(nodes, links, place, owned_of(word)),
        None => None,
    }
}

/// Appends the moves of these step words, or says Unknown where one of them names nothing.
fn push_moves(
    nodes: &[SceneNode],
    links: &[LinkSketch],
    moves: &mut Vec<Move>,
    words: &[&[u8]],
) -> Result<(), LineError>
    requires nodes { AllByRecursion IsNode nodes.now }
    requires few { length nodes.now ≤ MAX_NODES }
    requires few_links { length links.now ≤ MAX_LINKS }
    requires moves { AllByRecursion (IsMove nodes.now links.now) moves.old.items }
    ensures moves { OnOk result (moves.new.items ≡ moves.old.items ++ filter_map (move_of nodes.now links.now) (map (λ word. word.now) words.now)) }
    ensures all { OnOk result (list_all (λ word. is_some (move_of nodes.now links.now word)) (map (λ word. word.now) words.now) ≡ true) }
    ensures unknown { (kind : SceneKind) → result ≡ Err (LineError.Kind kind) → (kind ≡ SceneKind.Unknown) × (list_all (λ word. is_some (move_of nodes.now links.now word)) (map (λ word. word.now) words.now) ≡ false) }
    ensures kept { OnOk result (AllByRecursion (IsMove nodes.now links.now) moves.new.items) }
{
    for word in words {
        let Some(next) = move_of(nodes, links, word) else {
            return Err(LineError::Kind(SceneKind::Unknown));
        };
        match moves.push(next) {
            Ok(()) => {}
            Err(_) => return Err(LineError::NoMemory),
        }
    }
    Ok(())
}

impl Sketch {
    /// A `schedule` line that is the only one.
    pub(crate) fn state_schedule(&mut self, schedule: Schedule) -> Result<(), LineError>
        requires kept { IsSketch self.old }
        requires schedule { IsSchedule self.old.nodes self.old.links (plain_schedule schedule) }
        ensures answer { Judged result self.new (state_schedule self.old (plain_schedule schedule)) }
        ensures kept { OnOk result (IsSketch self.new) }
    {
        if self.schedule.is_some() {
            return Err(LineError::Kind(SceneKind::Twice));
        }
        self.schedule = Some(schedule);
        Ok(())
    }

    /// A `schedule shuffle` line.
    pub(crate) fn state_shuffle(&mut self, args: &[&[u8]]) -> Result<(), LineError>
        requires kept { IsSketch self.old }
        requires fits { Fits Form.Shuffle (map (λ word. word.now) args.now) }
        ensures answer { Judged result self.new (state_schedule self.old (shuffled (number_at (map (λ word. word.now) args.now) 1))) }
        ensures kept { OnOk result (IsSketch self.new) }
    {
        self.state_schedule(Schedule::Shuffle(number_at(Form::Shuffle, args, 1)))
    }

    /// A `schedule steps` line, by its step words.
    pub(crate) fn state_moves(&mut self, alloc: Global, words: &[&[u8]]) -> Result<(), LineError>
        requires kept { IsSketch self.old }
        ensures answer { Judged result self.new (state_moves self.old (map (λ word. word.now) words.now)) }
        ensures kept { OnOk result (IsSketch self.new) }
    {
        let (is_other, mut moves) = match self.schedule.take() {
            None => (false, Vec::new(alloc)),
            Some(Schedule::Steps(moves)) => (false, moves),
            Some(_) => (true, Vec::new(alloc)),
        };
        push_moves(&self.nodes, &self.links, &mut moves, words)?;
        if is_other {
            return Err(LineError::Kind(SceneKind::Twice));
        }
        self.schedule = Some(Schedule::Steps(moves));
        Ok(())
    }
}
