//! What follows for the record of a network's run.

ghost use Rattle.std.specs.Prelude.{[], List, length, map};
ghost use Rattle.csp_causal.specs.Causal.{IsCausal};
ghost use Rattle.csp_consistent.specs.Consistent.{IsConsistent};
ghost use Rattle.csp_posts.specs.Posts.{PlainPost};
ghost use Rattle.csp_record.specs.Record.{PlainRecord};
ghost use Rattle.csp_record.specs.Whole.{IsWhole};
ghost use Rattle.csp_scene.specs.Kept.{AreLinksAfter};
ghost use Rattle.csp_scene.specs.Ranges.{IsScene};
ghost use Rattle.csp_scene.specs.Scene.{PlainScene};
ghost use Rattle.csp_standing.specs.Network.{IsNetworkOf, PlainNetwork};
ghost use Rattle.csp_standing.specs.Shown.{AreLoggedBy, AreReached};
ghost use Rattle.csp_telling.specs.Closed.{IsClosed};

use crate::buffers::returns_all;
use csp_consistent::{
    applies_plans, keeps_promises, names_origins, spreads_by_plans, use_their_own,
};
use csp_lists::weighs;
use csp_topology::{names_parties_apart, orders_wires, puts_leaders_first, wires_lanes};

/// The record of a network's run, whatever turns its posts took and whenever they met, is consistent with its scene.
pub fn closes_consistent()
    ensures { (scene : PlainScene) (n : PlainNetwork) (posts : List PlainPost) (r : PlainRecord) → IsScene scene → AreLinksAfter (length scene.nodes) [] scene.links → IsNetworkOf scene n posts → IsClosed scene posts r → IsConsistent scene r }
{
    applies_plans();
    spreads_by_plans();
    names_origins();
    keeps_promises();
    use_their_own();
    puts_leaders_first();
    names_parties_apart();
    orders_wires();
    wires_lanes();
}

/// Its logs are those of the posts; and all takes and puts have come to what each pass was told.
pub fn closes_reached()
    ensures logs { (scene : PlainScene) (posts : List PlainPost) (r : PlainRecord) → IsClosed scene posts r → AreLoggedBy posts r.parties }
    ensures reached { (scene : PlainScene) (n : PlainNetwork) (posts : List PlainPost) (r : PlainRecord) → IsNetworkOf scene n posts → IsClosed scene posts r → AreReached posts }
{}

/// The places of each node hold together just its buffers, each once.
pub fn closes_whole()
    ensures { (scene : PlainScene) (n : PlainNetwork) (posts : List PlainPost) (r : PlainRecord) → IsScene scene → AreLinksAfter (length scene.nodes) [] scene.links → IsNetworkOf scene n posts → IsClosed scene posts r → IsWhole (map (λ c. c.buffers) scene.nodes) r }
{
    orders_wires();
    weighs();
    returns_all();
}

/// It is causal: no application and its router had both got of the other, at two moments, what the other had yet to put.
pub fn closes_causal()
    ensures { (scene : PlainScene) (n : PlainNetwork) (posts : List PlainPost) (r : PlainRecord) → IsScene scene → AreLinksAfter (length scene.nodes) [] scene.links → IsNetworkOf scene n posts → IsClosed scene posts r → IsCausal r }
{
    names_parties_apart();
    orders_wires();
    wires_lanes();
}
