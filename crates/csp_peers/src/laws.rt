//! What follows for a consistent record: where its flows are clear, and of the windows of its senders.

ghost use Rattle.csp_consistent.specs.Consistent.{IsConsistent};
ghost use Rattle.csp_peers.specs.Addressed.{AreAddressedApart};
ghost use Rattle.csp_peers.specs.Clear.{HasClearFlows};
ghost use Rattle.csp_peers.specs.Window.{LastIsWithinWindow};
ghost use Rattle.csp_record.specs.Passed.{passed};
ghost use Rattle.csp_record.specs.Record.{PlainRecord};
ghost use Rattle.csp_record.specs.Stale.{stale};
ghost use Rattle.csp_scene.specs.Judge.{scene_of};
ghost use Rattle.csp_scene.specs.Ranges.{IsScene};
ghost use Rattle.csp_scene.specs.Scene.{PlainScene};
ghost use Rattle.std.specs.Prelude.{◌≡◌, ℕ, List, Ok};

/// No two nodes of the scene that a text states have one address.
pub fn addresses_differ()
    ensures { (text : List ℕ) (scene : PlainScene) → scene_of text ≡ Ok scene → AreAddressedApart scene.nodes }
{}

/// A record that is consistent with its scene, counts no changed packet, and whose flows are clear, counts no stale copy: each packet
/// that is handed to a reliable connection with a peer is of the peer's flow, and its two indices are near to where the connection
/// stands.
pub fn counts_no_stale()
    ensures { (scene : PlainScene) (r : PlainRecord) → IsScene scene → AreAddressedApart scene.nodes → IsConsistent scene r → passed r ≡ 0 → HasClearFlows scene r → stale r ≡ 0 }
{}

/// Where a consistent record counts neither stale copies nor changed packets, a data packet that is handed to one of two reliable
/// connections which are each other's peers, in what its router did last, has an index at most a window of its sender past the last one
/// that the connection delivered. Of an earlier turn the record so far says it.
pub fn keeps_window()
    ensures { (scene : PlainScene) (r : PlainRecord) → IsScene scene → IsConsistent scene r → stale r ≡ 0 → passed r ≡ 0 → LastIsWithinWindow scene r }
{}
