//! What holds between rounds, read off a record.

ghost use Rattle.csp_consistent.specs.Prompt.{IsPrompt};
ghost use Rattle.csp_consistent.specs.Runs.{AreLogsOf};
ghost use Rattle.csp_ends.specs.Ends.{PlainNodeQueues};
ghost use Rattle.csp_posts.specs.Between.{AreAllTraced, AreInRounds};
ghost use Rattle.csp_posts.specs.Posts.{PlainPost};
ghost use Rattle.csp_record.specs.Record.{PlainRecord};
ghost use Rattle.csp_log.specs.declared.who.Who.{Who};
ghost use Rattle.csp_scene.specs.Scene.{PlainScene};
ghost use Rattle.csp_standing.specs.Shown.{AreLoggedBy, AreOfScene, AreReached};
ghost use Rattle.csp_topology.specs.Parties.{parties_of};
ghost use Rattle.std.specs.Prelude.{ℕ, List};

/// In a record whose logs are those of the posts of a scene, between rounds, each lane that was found
/// empty or full was so by what earlier rounds had done to it; of pools and inboxes what `IsPrompt` says.
pub fn shows()
    ensures { (scene : PlainScene) (r : PlainRecord) (nodes : List PlainNodeQueues) (opened : Who → List ℕ) (time : ℕ) (posts : List PlainPost) → AreLogsOf (parties_of scene) r.parties → AreLoggedBy posts r.parties → AreOfScene scene nodes posts → AreAllTraced nodes opened posts → AreInRounds nodes time posts → AreReached posts → IsPrompt scene r }
{}
