//! No buffer is lost or made by a network's run.

ghost use Rattle.std.specs.Prelude.{◌≡◌, ℕ, [], List, Some, length, slice_get};
ghost use Rattle.std.specs.List.{range_with_len};
ghost use Rattle.csp_deck.specs.Step.{times};
ghost use Rattle.csp_posts.specs.Posts.{PlainPost};
ghost use Rattle.csp_scene.specs.Kept.{AreLinksAfter};
ghost use Rattle.csp_scene.specs.Ranges.{IsScene};
ghost use Rattle.csp_scene.specs.Scene.{PlainNode, PlainScene};
ghost use Rattle.csp_standing.specs.Network.{IsNetworkOf, PlainNetwork};
ghost use Rattle.csp_telling.specs.Remains.{AreRemains, PlainRemains, returned};

use csp_consistent::use_their_own;
use csp_topology::{names_parties_apart, puts_leaders_first, stays_home};

/// What was left in the pool, the lanes and the inbox of a node at the end of a run, and what its parties hold, are all
/// buffers of the node, each once.
pub fn returns_all()
    ensures { (scene : PlainScene) (n : PlainNetwork) (posts : List PlainPost) (all : List PlainRemains) → IsScene scene → AreLinksAfter (length scene.nodes) [] scene.links → IsNetworkOf scene n posts → AreRemains scene posts all
        → (node : ℕ) (c : PlainNode) (m : PlainRemains) → slice_get scene.nodes node ≡ Some c → slice_get all node ≡ Some m → (k : ℕ) → times k (returned node m posts) ≡ times k (range_with_len 0 c.buffers) }
{
    puts_leaders_first();
    names_parties_apart();
    stays_home();
    use_their_own();
}
