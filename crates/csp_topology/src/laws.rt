//! What is true of the network of every scene.

ghost use Rattle.std.specs.Prelude.{◌≡◌, ◌≤◌, ◌++◌, ℕ, List, [], Some, length, map, slice_get};
ghost use Rattle.std.specs.List.{AllByRecursion};
ghost use Rattle.csp_deck.specs.Carried.{places_of};
ghost use Rattle.csp_lists.specs.Order.{places_in};
ghost use Rattle.csp_log.specs.declared.places.Place.TheVariants as place;
ghost use Rattle.csp_log.specs.declared.places.QueueId.{QueueId};
ghost use Rattle.csp_log.specs.declared.places.QueueId.TheVariants as queue;
ghost use Rattle.csp_log.specs.declared.places.Rule.{Rule};
ghost use Rattle.csp_party.specs.Any.{uses};
ghost use Rattle.csp_log.specs.Who.{node_of};
ghost use Rattle.csp_scene.specs.Kept.{AreLinksAfter};
ghost use Rattle.csp_scene.specs.Links.{links_at};
ghost use Rattle.csp_scene.specs.Ranges.{IsScene};
ghost use Rattle.csp_scene.specs.Scene.{PlainScene, PlainNode};
ghost use Rattle.csp_topology.specs.Lanes.{PlainLane, leader_of};
ghost use Rattle.csp_topology.specs.Parties.{PlainOpening, parties_of};
ghost use Rattle.csp_topology.specs.Wired.{IsLed, IsServed, IsWire, Joins, Side, Stands, StaysHome, end_on, inbox_rule};
ghost use Rattle.csp_topology.specs.Wires.{lanes_of, wire_at, wires_of};

use crate::topology::MAX_PARTIES;

/// A scene has no more than `MAX_PARTIES` parties.
pub fn counts_parties()
    ensures { (scene : PlainScene) → IsScene scene → length (parties_of scene) ≤ MAX_PARTIES }
{}

/// No two parties of a scene have one name.
pub fn names_parties_apart()
    ensures { (scene : PlainScene) (i j : ℕ) (o p : PlainOpening) → slice_get (parties_of scene) i ≡ Some o → slice_get (parties_of scene) j ≡ Some p → o.who ≡ p.who → i ≡ j }
{}

/// Each lane joins two parties of the scene.
pub fn joins_parties()
    ensures { (scene : PlainScene) → IsScene scene → AreLinksAfter (length scene.nodes) [] scene.links → (node k : ℕ) (l : PlainLane) → wire_at scene node k ≡ Some l → Joins scene l }
{}

/// No two ends of lanes are called the same by one party.
pub fn names_ends_apart()
    ensures { (scene : PlainScene) → IsScene scene → AreLinksAfter (length scene.nodes) [] scene.links → (n m k j : ℕ) (l o : PlainLane) (s t : Side) → wire_at scene n k ≡ Some l → wire_at scene m j ≡ Some o → end_on s l ≡ end_on t o → (n ≡ m) × (k ≡ j) × (s ≡ t) }
{}

/// Each queue that a party uses is its inbox or a lane with an end that it calls so; and who uses an inbox.
pub fn serves_parties()
    ensures queues { (scene : PlainScene) → IsScene scene → AreLinksAfter (length scene.nodes) [] scene.links → (i : ℕ) (o : PlainOpening) → slice_get (parties_of scene) i ≡ Some o → (q : QueueId) (r : Rule) → uses o.party q ≡ Some r → IsServed scene o.who q r }
    ensures inboxes { (scene : PlainScene) (i : ℕ) (o : PlainOpening) → slice_get (parties_of scene) i ≡ Some o → uses o.party queue.Inbox ≡ inbox_rule o.who }
{}

/// Each lane of a node carries what its name says, and is used by parties of that node and by links.
pub fn stays_home()
    ensures { (scene : PlainScene) → IsScene scene → AreLinksAfter (length scene.nodes) [] scene.links → (node k : ℕ) (l : PlainLane) → wire_at scene node k ≡ Some l → StaysHome scene node l }
{}

/// The router or bridge of a node stands before all other parties of the node.
pub fn puts_leaders_first()
    ensures led { (scene : PlainScene) (j : ℕ) (o : PlainOpening) → slice_get (parties_of scene) j ≡ Some o → (node : ℕ) → node_of o.who ≡ Some node → IsLed scene node j o.who }
    ensures hubs { (scene : PlainScene) (node : ℕ) (n : PlainNode) → slice_get scene.nodes node ≡ Some n → Stands scene (leader_of node n.addr) }
{}

/// The lanes of a node stand in the order of its queues, before its inbox.
pub fn orders_wires()
    ensures order { (scene : PlainScene) → IsScene scene → AreLinksAfter (length scene.nodes) [] scene.links → (node : ℕ) (n : PlainNode) (wires : List PlainLane) → slice_get scene.nodes node ≡ Some n → slice_get (wires_of scene) node ≡ Some wires → map (λ l. place.Lane l.queue) wires ++ places_of queue.Inbox ≡ places_in (record { ifaces = length (links_at node scene.links); apps = length n.apps }) }
    ensures count { (scene : PlainScene) → length (wires_of scene) ≡ length scene.nodes }
{}

/// Each lane of a scene is among those of its node.
pub fn wires_lanes()
    ensures { (scene : PlainScene) → IsScene scene → AreLinksAfter (length scene.nodes) [] scene.links → AllByRecursion (IsWire scene) (lanes_of scene) }
{}
