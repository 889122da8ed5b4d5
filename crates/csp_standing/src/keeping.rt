//! What rounds and meetings keep of a network.

ghost use Rattle.std.specs.Prelude.{ℕ, ◌<◌, ◌≤◌, ◌^◌, List, map};
ghost use Rattle.std.specs.List.{AllByRecursion, AllZip};
ghost use Rattle.csp_deck.specs.Runs.{last_time};
ghost use Rattle.csp_posts.specs.Meetings.{HasMet};
ghost use Rattle.csp_posts.specs.Posts.{PlainPost, AreTurns};
ghost use Rattle.csp_posts.specs.Seen.{SeenPost};
ghost use Rattle.csp_scene.specs.Scene.{PlainScene};
ghost use Rattle.csp_standing.specs.Network.{IsNetworkOf, PlainNetwork};

/// A network of a scene stays one where each of its posts makes turns at one time, none of them before its last one.
pub fn turns_keep_network()
    ensures { (scene : PlainScene) (n : PlainNetwork) (time count : ℕ) (posts after : List PlainPost) → AllZip (AreTurns n.nodes time count) posts after → AllByRecursion (λ s. last_time 0 s.entries ≤ time) posts → time < 2 ^ 62 → IsNetworkOf scene n posts → IsNetworkOf scene n after }
{}

/// So it does where its posts meet.
pub fn meetings_keep_network()
    ensures { (scene : PlainScene) (n : PlainNetwork) (posts after : List SeenPost) → AllZip HasMet posts after → IsNetworkOf scene n (map (λ s. s.plain) posts) → IsNetworkOf scene n (map (λ s. s.plain) after) }
{}
