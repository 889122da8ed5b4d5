//! Scenarios: `scene judge TEXT` says in which line and for what a text is refused, or that it is taken. The others
//! show what its last line states: `scene step TEXT`, `scene node TEXT`, `scene options TEXT`, `scene routes TEXT`,
//! `scene link TEXT`, `scene schedule TEXT`.

use csp_cases::Case;
use csp_scene::{Scene, SceneError, SceneNode, Step, parse};

/// Tells what becomes of a text, or what it states.
pub(super) fn answer(case: &mut Case) {
    let how = case.word();
    let text = case.unescaped(case.rest());
    match parse(case.alloc(), text.as_slice()) {
        Err(SceneError::NoMemory) => case.lacks_memory(),
        Err(SceneError::Refused { line, kind }) => write!(case, "line {line}: {kind:?}"),
        Ok(scene) => stated(case, how, &scene),
    }
}

/// Tells what a text states.
fn stated(case: &mut Case, how: &str, scene: &Scene) {
    match how {
        "judge" => case.tell("taken"),
        "schedule" => case.tell_shown(&scene.schedule),
        "link" => match scene.links.last() {
            Some(link) => case.tell_shown(link),
            None => case.misread(),
        },
        "step" => match last_step(scene) {
            Some(step) => case.tell_shown(&step),
            None => case.misread(),
        },
        _ => match scene.nodes.last() {
            Some(node) => of_node(case, how, node),
            None => case.misread(),
        },
    }
}

/// Tells what a text states of its last node.
fn of_node(case: &mut Case, how: &str, node: &SceneNode) {
    match how {
        "node" => numbers(case, node),
        "options" => case.tell_shown(&node.options),
        "routes" => case.tell_shown(&node.routes.rows()),
        _ => case.misread(),
    }
}

/// The last step of the first node's last application.
fn last_step(scene: &Scene) -> Option<Step<'_>> {
    let script = &scene.nodes.first()?.apps.last()?.script;
    let last = script.len().checked_sub(1)?;
    Some(script.step(last))
}

/// Tells a node's name, address, buffers, seed and room of its inbox.
fn numbers(case: &mut Case, node: &SceneNode) {
    let name = node.name.as_str();
    match node.addr {
        Some(addr) => write!(case, "node {name} {}", addr.get()),
        None => write!(case, "bridge {name}"),
    }
    let (buffers, seed, inbox) = (node.buffers, node.seed, node.inbox);
    write!(case, " buffers {buffers} seed {seed} inbox {inbox}");
}
