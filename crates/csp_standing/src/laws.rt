//! What follows from what a network is.

ghost use Rattle.std.specs.Prelude.{◌≡◌, ℕ, [], IfSome, List, length};
ghost use Rattle.std.specs.List.{AllByRecursion};
ghost use Rattle.csp_posts.specs.Between.{AreAllTraced};
ghost use Rattle.csp_posts.specs.Books.{AreInBooks, IsFresh};
ghost use Rattle.csp_posts.specs.Posts.{PlainPost};
ghost use Rattle.csp_scene.specs.Kept.{AreLinksAfter};
ghost use Rattle.csp_scene.specs.Ranges.{IsScene};
ghost use Rattle.csp_scene.specs.Scene.{PlainScene};
ghost use Rattle.csp_standing.specs.Network.{IsNetworkOf, PlainNetwork, opened_in};
ghost use Rattle.csp_standing.specs.Played.{HaveRunFrom};
ghost use Rattle.csp_standing.specs.Shown.{AreOfScene};
ghost use Rattle.csp_standing.specs.Standing.{HaveLeaders};
ghost use Rattle.csp_topology.specs.Parties.{parties_of};

use csp_topology::{joins_parties, names_parties_apart, puts_leaders_first, wires_lanes};

/// The router or bridge of each node leads it.
pub fn leads_nodes()
    ensures { (scene : PlainScene) (n : PlainNetwork) (posts : List PlainPost) → IsNetworkOf scene n posts → HaveLeaders posts }
{
    puts_leaders_first();
    names_parties_apart();
}

/// Where each party answers for just what it did, and each node has a leader, the books of the pools are right.
#[tactic(auto, using(crate::proofs::Opening::fresh_books))]
pub fn opens_books()
    ensures { (posts : List PlainPost) → HaveLeaders posts → AllByRecursion (λ s. IfSome s.ends.home IsFresh) posts → AreInBooks posts }
{}

/// Each post is that of its party, after the turns of its log.
#[tactic(auto, using(crate::proofs::Running::have_run))]
pub fn runs_parties()
    ensures { (scene : PlainScene) (n : PlainNetwork) (posts : List PlainPost) → IsNetworkOf scene n posts → HaveRunFrom (parties_of scene) posts }
{}

/// What each post has in hand tells what its log says.
pub fn traces_posts()
    ensures { (scene : PlainScene) (n : PlainNetwork) (posts : List PlainPost) → IsNetworkOf scene n posts → AreAllTraced n.nodes (opened_in scene) posts }
{
    puts_leaders_first();
    names_parties_apart();
}

/// The posts have the ends and passes of their scene.
pub fn stands_in_scene()
    ensures { (scene : PlainScene) (n : PlainNetwork) (posts : List PlainPost) → IsScene scene → AreLinksAfter (length scene.nodes) [] scene.links → IsNetworkOf scene n posts → AreOfScene scene n.nodes posts }
{
    joins_parties();
    puts_leaders_first();
    wires_lanes();
}
