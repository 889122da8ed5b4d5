//! The ends of links, each with its link.

ghost use Rattle.std.specs.Prelude.{◌≡◌, ◌≤◌, ◌++◌, length, IfOk, OnOk};
ghost use Rattle.csp_topology.specs.Wires.{joints_at, joints_from, joints_on};

use csp_log::{Carries, End, LINK_ENDS};
use csp_scene::{MAX_LINKS, SceneLink};
use std::alloc::{AllocError, Global};
use std::marker::Model;

/// An end of a link. Contracts see it as a `PlainJoint`.
#[derive(Clone, Copy)]
pub(crate) struct Joint {
    /// The place of the link among the links.
    pub link: u8,
    /// What its lanes carry.
    pub carries: Carries,
    /// The place of the end among the link's ends.
    pub place: u8,
    /// Where that is.
    pub end: End,
}

impl Model for Joint {
    ghost use Rattle.csp_topology.specs.Wires.{PlainJoint};

    ghost Value = { PlainJoint };

    ghost view = { λ j. record { link = j.link; carries = j.carries; place = j.place; end = j.end } };

    ghost inverse = { λ j. record { link = j.link; carries = j.carries; place = j.place; end = j.end } };
}

/// The ends of all links, in their order.
pub(crate) fn joints_of(alloc: Global, links: &[SceneLink]) -> Result<Vec<Joint>, AllocError>
    requires { length links.now ≤ MAX_LINKS }
    ensures { IfOk result (λ joints. joints.items ≡ joints_from 0 links.now) }
{
    let mut joints = Vec::new(alloc);
    for (number, link) in links.iter().enumerate() {
        push_joints(
            &mut joints,
            number as u8,
            link.kind.carries(),
            link.ends.as_slice(),
        )?;
    }
    Ok(joints)
}

/// Appends the ends of the link at this place among the links, whose lanes carry this.
fn push_joints(
    joints: &mut Vec<Joint>,
    number: u8,
    carries: Carries,
    ends: &[End],
) -> Result<(), AllocError>
    requires { length ends.now ≤ LINK_ENDS }
    ensures { OnOk result (joints.new.items ≡ joints.old.items ++ joints_on number carries 0 ends.now) }
{
    for (place, end) in ends.iter().enumerate() {
        joints.push(Joint {
            link: number,
            carries,
            place: place as u8,
            end: *end,
        })?;
    }
    Ok(())
}

/// Those of these ends that are at the node at this place, in their order.
pub(crate) fn joints_at(alloc: Global, node: u8, joints: &[Joint]) -> Result<Vec<Joint>, AllocError>
    ensures { IfOk result (λ here. here.items ≡ joints_at node joints.now) }
{
    let mut here = Vec::new(alloc);
    for joint in joints {
        if joint.end.node == node {
            here.push(*joint)?;
        }
    }
    Ok(here)
}
