//! Which end of which link is named.

ghost use Rattle.std.specs.Prelude.{◌≡◌, find};
ghost use Rattle.std.specs.Option.{option_map};
ghost use Rattle.csp_scene.specs.Naming.{is_link_called};
ghost use Rattle.csp_exports.specs.Ends.{end_named, end_on, is_end_at, is_written};

use csp_log::{End, LinkKind};
use csp_scene::{Scene, SceneLink, SceneNode};
use std::marker::Model;

/// How the frames that an end put on its link are written.
#[derive(Clone, Copy)]
pub enum Form {
    /// As the bytes that they are, one frame after the other: on a KISS link.
    Kiss,
    /// As lines, one for each frame: on a CAN link.
    Candump,
}

/// Names an end of a link. Contracts see it as its two names.
#[derive(Drop)]
pub struct EndName<'a> {
    /// The name of the link.
    pub link: &'a str,
    /// The name of the node, or bridge, where it ends.
    pub node: &'a str,
}

impl<'a> Model for EndName<'a> {
    ghost use Rattle.csp_exports.specs.Ends.{PlainEndName};

    ghost Value = { PlainEndName };

    ghost view = { λ name. record { link = name.link.now; node = name.node.now } };
}

impl<'a> EndName<'a> {
    /// The same names once more.
    pub fn again(&self) -> EndName<'a>
        ensures { result ≡ self.now }
    {
        EndName {
            link: self.link,
            node: self.node,
        }
    }
}

/// Whether what a link of this kind carries can be written in this form.
fn is_written(form: Form, kind: LinkKind) -> bool
    ensures { result ≡ is_written form kind }
{
    match (form, kind) {
        (Form::Kiss, LinkKind::Kiss) => true,
        (Form::Kiss, LinkKind::KissHeader) => true,
        (Form::Kiss, LinkKind::Can) => false,
        (Form::Candump, LinkKind::Kiss) => false,
        (Form::Candump, LinkKind::KissHeader) => false,
        (Form::Candump, LinkKind::Can) => true,
    }
}

/// Whether an end is at the node of this name.
fn is_end_at(nodes: &[SceneNode], name: &str, end: End) -> bool
    ensures { result ≡ is_end_at nodes.now name.now end }
{
    match nodes.get(usize::from(end.node)) {
        Some(node) => node.name.as_bytes() == name.as_bytes(),
        None => false,
    }
}

/// The first of these ends that is at the node of this name.
fn end_at(nodes: &[SceneNode], name: &str, ends: &[End]) -> Option<End>
    ensures { result ≡ find (is_end_at nodes.now name.now) ends.now }
{
    ends.iter()
        .copied()
        .find(|end| is_end_at(nodes, name, *end))
}

/// The end of a link at the node of this name, where its frames can be written in this form.
fn end_on(nodes: &[SceneNode], form: Form, node: &str, link: &SceneLink) -> Option<End>
    ensures { result ≡ end_on nodes.now form node.now link.now }
{
    if is_written(form, link.kind) {
        end_at(nodes, node, link.ends.as_slice())
    } else {
        None
    }
}

/// The first of these links that has this name.
fn link_called<'a>(links: &'a [SceneLink], name: &str) -> Option<&'a SceneLink>
    ensures { option_map (λ link. link.now) result ≡ find (is_link_called name.now) links.now }
{
    links
        .iter()
        .find(|link| link.name.as_bytes() == name.as_bytes())
}

/// The end that is named: of the link of this name, at the node of this name. `None` where the scene lacks one of them, where
/// the link doesn't end there, and where it carries what can't be written in this form.
pub fn end_named(scene: &Scene, form: Form, name: &EndName) -> Option<End>
    ensures { result ≡ end_named scene.now form name.now }
{
    match link_called(scene.links.as_slice(), name.link) {
        Some(link) => end_on(scene.nodes.as_slice(), form, name.node, link),
        None => None,
    }
}
