//! Links in the making.

ghost use Rattle.std.specs.Prelude.{◌≡◌, ◌==◌, ◌≤◌, ◌<◌, ◌+◌, ◌∷◌, [], List, OnOk, IfOk, IfSome, length};
ghost use Rattle.std.specs.List.{list_any, position};
ghost use Rattle.csp_scene.specs.Links.{touches};
ghost use Rattle.csp_scene.specs.Faults.{has_fault, with_fault};
ghost use Rattle.csp_scene.specs.Stated.{stated_of};

use crate::harm::Harm;
use crate::scenario::SceneLink;
use csp_base::Name;
use csp_link::Fault;
use std::alloc::{AllocError, Global};
use std::collections::BTreeSet;
use std::marker::Model;

/// What a fault is of: no two faults of a link are of the same.
#[derive(Clone, Copy, PartialEq, Eq, PartialOrd, Ord)]
pub(crate) struct Stated {
    frame: u64,
    dir: u8,
    harm: Harm,
}

impl Stated {
    /// What this fault is of.
    fn of(fault: &Fault) -> Stated
        ensures { result ≡ stated_of fault.now }
    {
        Stated {
            frame: fault.frame,
            dir: fault.dir,
            harm: Harm::of(fault.kind),
        }
    }
}

/// A link in the making, and what its faults are of.
#[derive(Drop)]
pub(crate) struct LinkSketch {
    link: SceneLink,
    stated: BTreeSet<Stated>,
}

impl Model for LinkSketch {
    ghost use Rattle.csp_scene.specs.Scene.{PlainLink};

    ghost Value = { PlainLink };

    ghost view = { λ sketch. sketch.link };

    ghost use Rattle.csp_scene.specs.Stated.{AreStated};

    ghost invariant = { λ sketch. AreStated sketch.stated sketch.link.plan };
}

impl LinkSketch {
    /// A link without faults.
    pub(crate) fn new(alloc: Global, link: SceneLink) -> LinkSketch
        requires { link.plan ≡ [] }
        ensures { result ≡ link }
    {
        LinkSketch {
            link,
            stated: BTreeSet::new(alloc),
        }
    }

    /// Its name.
    pub(crate) fn name(&self) -> Name
        ensures { result.bytes ≡ self.now.name }
    {
        self.link.name
    }

    /// Whether it touches the node in a place.
    pub(crate) fn touches(&self, place: usize) -> bool
        ensures { result ≡ touches place self.now }
    {
        self.link.touches(place)
    }

    /// Whether it is a hub.
    pub(crate) fn is_hub(&self) -> bool
        ensures { result ≡ self.now.hub }
    {
        self.link.hub
    }

    /// The number of its end at the node in a place.
    pub(crate) fn end_at(&self, place: usize) -> Option<u8>
        ensures value { result ≡ position (λ end. end.node == place) self.now.ends }
        ensures inside { IfSome result (λ end. end < length self.now.ends) }
    {
        let end = self.link.end_at(place)?;
        Some(end as u8)
    }

    /// How many faults it has.
    pub(crate) fn faults(&self) -> usize
        ensures { result ≡ length self.now.plan }
    {
        self.link.plan.len()
    }

    /// Whether it has a fault of the same direction, frame and kind.
    pub(crate) fn has(&self, fault: &Fault) -> bool
        ensures { result ≡ has_fault fault.now self.now.plan }
    {
        self.stated.contains(&Stated::of(fault))
    }

    /// Adds a fault.
    pub(crate) fn add(&mut self, fault: Fault) -> Result<(), AllocError>
        ensures { OnOk result (self.new ≡ with_fault fault self.old) }
    {
        self.link.plan.reserve(1)?;
        self.stated.insert(Stated::of(&fault))?;
        self.link.plan.push_reserved(fault);
        Ok(())
    }

    /// The link itself.
    pub(crate) fn into_link(self) -> SceneLink
        ensures { result ≡ self }
    {
        self.link
    }
}
