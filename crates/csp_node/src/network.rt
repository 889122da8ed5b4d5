//! The network of a scene.

ghost use Rattle.std.specs.Prelude.{◌≡◌, [], IfOk, IfSome, length, map};
ghost use Rattle.std.specs.List.{AllByRecursion, AllZip};
ghost use Rattle.csp_ends.specs.Ends.{AreOf};
ghost use Rattle.csp_posts.specs.Between.{HaveMet};
ghost use Rattle.csp_posts.specs.Books.{AreInBooks, IsFresh};
ghost use Rattle.csp_posts.specs.Meetings.{HasMet};
ghost use Rattle.csp_scene.specs.Kept.{AreLinksAfter};
ghost use Rattle.csp_scene.specs.Ranges.{IsScene};
ghost use Rattle.csp_scene.specs.Scene.{PlainScene};
ghost use Rattle.csp_standing.specs.Fabrics.{IsFabricOf};
ghost use Rattle.csp_telling.specs.Closed.{IsClosed};

use csp_closing::close_fabric;
use csp_opening::open_fabric;
use csp_posts::{Post, meet_all};
use csp_record::Record;
use csp_scene::Scene;
use csp_standing::Fabric;
use std::alloc::{AllocError, Global};
use std::sync::Wait;

/// A scene's network: the queues that its posts share, and what the end of its run needs. It must be spent by `close`.
pub struct Network {
    /// What it is made of.
    pub fabric: Fabric,
}

impl Network {
    /// The network of a scene in which nothing has happened, and its posts in the order of the parties.
    ///
    /// # Errors
    /// Want of memory; what was opened is closed then.
    pub fn open<R: Wait>(
        rt: &R,
        alloc: Global,
        scene: &Scene,
    ) -> Result<(Network, Vec<Post>), AllocError>
        requires scene { IsScene scene.now }
        requires links { AreLinksAfter (length scene.now.nodes) [] scene.now.links }
        ensures fabric { IfOk result (λ r. IsFabricOf scene.now r.0.fabric r.1.items) }
        ensures new { IfOk result (λ r. AllByRecursion (λ s. s.plain.entries ≡ []) r.1.items) }
        ensures fresh { IfOk result (λ r. AllByRecursion (λ s. IfSome s.plain.ends.home IsFresh) r.1.items) }
    {
        let (fabric, posts) = match open_fabric(rt, alloc, scene) {
            Ok(opened) => opened,
            Err(error) => return Err(error),
        };
        Ok((Network { fabric }, posts))
    }

    /// Lets all posts of the network meet: each knows from then on what every other has done to its queues. Nothing is put or taken.
    pub fn meet(&self, posts: &mut [Post])
        requires of_it { AllByRecursion (λ s. AreOf self.now.fabric.queues s.plain.ends) posts.old }
        ensures heard { AllZip HasMet posts.old posts.new }
        ensures books { AreInBooks (map (λ s. s.plain) posts.old) → AreInBooks (map (λ s. s.plain) posts.new) }
        ensures met { AreInBooks (map (λ s. s.plain) posts.old) → HaveMet (map (λ s. s.plain) posts.new) }
    {
        meet_all(&self.fabric.queues, posts);
    }

    /// Ends the run of the network with all its posts. The record has the posts' own logs; every buffer is taken back, and the memory of each
    /// node is given back with each of its buffers once. It takes no memory.
    pub fn close<R: Wait>(self, rt: &R, posts: Vec<Post>) -> Record
        requires { (scene : PlainScene) × IsScene scene × AreLinksAfter (length scene.nodes) [] scene.links × IsFabricOf scene self.fabric posts.items }
        ensures { (scene : PlainScene) → IsScene scene → AreLinksAfter (length scene.nodes) [] scene.links → IsFabricOf scene self.fabric posts.items → IsClosed scene (map (λ s. s.plain) posts.items) result }
    {
        let Network { fabric } = self;
        close_fabric(rt, fabric, posts)
    }
}
