//! What rounds keep of a network, and what its record shows at the end.

ghost use Rattle.std.specs.Prelude.{◌≡◌, ◌+◌, ◌^◌, ◌<◌, ◌≤◌, ℕ, [], false, IfSome, List, length, map};
ghost use Rattle.std.specs.List.{AllByRecursion, AllZip};
ghost use Rattle.csp_causal.specs.Causal.{IsCausal};
ghost use Rattle.csp_consistent.specs.Threaded.{IsThreaded};
ghost use Rattle.csp_node.specs.Rounds.{HasRun, IsBetween, plains, weight};
ghost use Rattle.csp_node.specs.Runs.{HasStopped};
ghost use Rattle.csp_posts.specs.Between.{HaveMet};
ghost use Rattle.csp_posts.specs.Books.{AreInBooks, IsFresh};
ghost use Rattle.csp_posts.specs.Meetings.{HasMet};
ghost use Rattle.csp_posts.specs.Ready.{CanTurn, HasTurned};
ghost use Rattle.csp_posts.specs.Seen.{SeenPost};
ghost use Rattle.csp_record.specs.Record.{PlainRecord};
ghost use Rattle.csp_record.specs.Whole.{IsWhole};
ghost use Rattle.csp_scene.specs.Kept.{AreLinksAfter};
ghost use Rattle.csp_scene.specs.Ranges.{IsScene};
ghost use Rattle.csp_scene.specs.Scene.{PlainScene};
ghost use Rattle.csp_standing.specs.Fabrics.{IsFabricOf};
ghost use Rattle.csp_standing.specs.Played.{are_done};
ghost use Rattle.csp_standing.specs.declared.fabric.Fabric.{Fabric};
ghost use Rattle.csp_telling.specs.Closed.{IsClosed};

use csp_posts::turns_keep_books;
use csp_standing::{
    goes_on, keeps_logs, keeps_when_met, leads_nodes, makes_a_round, makes_no_round,
    meetings_keep_network, opens_books, runs_parties, shows, shows_rounds, stands_in_scene, starts,
    traces_posts, turns_keep_network,
};
use csp_telling::{closes_causal, closes_consistent, closes_reached, closes_whole};

/// A network in which nothing has happened is one before its first round.
pub(crate) fn starts_rounds()
    ensures { (scene : PlainScene) (f : Fabric) (limit : ℕ) (posts : List SeenPost) → IsFabricOf scene f posts → AllByRecursion (λ s. s.plain.entries ≡ []) posts → AllByRecursion (λ s. IfSome s.plain.ends.home IsFresh) posts → IsBetween scene f limit 0 posts }
{
    leads_nodes();
    opens_books();
    starts();
    runs_parties();
    makes_no_round();
}

/// Once all posts have met, each that has the room can take its turns.
pub(crate) fn meets_ready()
    ensures { (scene : PlainScene) (f : Fabric) (limit now : ℕ) (posts met : List SeenPost) → IsBetween scene f limit now posts → now < 2 ^ 62 → AllByRecursion (λ s. 8 ≤ s.spare) posts → AllZip HasMet posts met → AllByRecursion (CanTurn f.queues now 8) met }
{
    meetings_keep_network();
}

/// A meeting of all posts, and then a round of all, begun before every application has ended and before the entries weigh as much as the limit, is one round more.
pub(crate) fn makes_rounds()
    ensures { (scene : PlainScene) (f : Fabric) (limit now : ℕ) (posts met after : List SeenPost) → IsBetween scene f limit now posts → are_done (plains posts) ≡ false → weight (plains posts) < limit → now < 2 ^ 62 → AllZip HasMet posts met → AreInBooks (plains met) → HaveMet (plains met) → AllZip (HasTurned f.queues now 8) met after → IsBetween scene f limit (now + 1) after }
{
    meetings_keep_network();
    turns_keep_network();
    turns_keep_books();
    runs_parties();
    traces_posts();
    keeps_when_met();
    goes_on();
    keeps_logs();
    makes_a_round();
}

/// The record of a network that has been run is one of a run in threads, and causal; the places of each node hold together just its buffers, each once;
/// and it tells why the run stopped.
pub(crate) fn tells_run()
    ensures threaded { (scene : PlainScene) (f : Fabric) (limit : ℕ) (posts : List SeenPost) (r : PlainRecord) → IsScene scene → AreLinksAfter (length scene.nodes) [] scene.links → HasRun scene f limit posts → IsClosed scene (plains posts) r → IsThreaded scene r }
    ensures whole { (scene : PlainScene) (f : Fabric) (limit : ℕ) (posts : List SeenPost) (r : PlainRecord) → IsScene scene → AreLinksAfter (length scene.nodes) [] scene.links → HasRun scene f limit posts → IsClosed scene (plains posts) r → IsWhole (map (λ n. n.buffers) scene.nodes) r }
    ensures causal { (scene : PlainScene) (f : Fabric) (limit : ℕ) (posts : List SeenPost) (r : PlainRecord) → IsScene scene → AreLinksAfter (length scene.nodes) [] scene.links → HasRun scene f limit posts → IsClosed scene (plains posts) r → IsCausal r }
    ensures stopped { (scene : PlainScene) (f : Fabric) (limit : ℕ) (posts : List SeenPost) (r : PlainRecord) → HasRun scene f limit posts → IsClosed scene (plains posts) r → HasStopped scene.until limit r }
{
    closes_causal();
    closes_consistent();
    closes_reached();
    closes_whole();
    shows_rounds();
    shows();
    runs_parties();
    traces_posts();
    stands_in_scene();
}
