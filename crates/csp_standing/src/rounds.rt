//! The rounds that were made, read off a record.

ghost use Rattle.csp_consistent.specs.Rounds.{HaveMadeRounds, IsMadeInRounds};
ghost use Rattle.csp_ends.specs.Ends.{PlainNodeQueues};
ghost use Rattle.csp_posts.specs.Between.{HasHeard};
ghost use Rattle.csp_posts.specs.Posts.{AreTurns, PlainPost};
ghost use Rattle.csp_record.specs.Record.{PlainRecord};
ghost use Rattle.csp_scene.specs.Scene.{PlainScene};
ghost use Rattle.csp_standing.specs.Played.{HaveRunFrom, are_done, logs_of};
ghost use Rattle.csp_standing.specs.Shown.{AreLoggedBy};
ghost use Rattle.csp_topology.specs.Parties.{PlainOpening, parties_of};
ghost use Rattle.std.specs.Prelude.{◌≡◌, ◌+◌, ℕ, List, [], false};
ghost use Rattle.std.specs.List.{AllByRecursion, AllZip};

/// Parties that have made no turn have made no round.
pub fn makes_no_round()
    ensures { (os : List PlainOpening) (posts : List PlainPost) → HaveRunFrom os posts → AllByRecursion (λ s. s.entries ≡ []) posts → HaveMadeRounds 0 os (logs_of posts) }
{}

/// A round of eight turns of each party that has not ended, begun before all applications have ended, is
/// one round more.
pub fn makes_a_round()
    ensures { (nodes : List PlainNodeQueues) (now : ℕ) (os : List PlainOpening) (posts after : List PlainPost) → HaveMadeRounds now os (logs_of posts) → HaveRunFrom os posts → HaveRunFrom os after → are_done posts ≡ false → AllZip (AreTurns nodes now 8) posts after → HaveMadeRounds (now + 1) os (logs_of after) }
{}

/// A meeting is no turn: it leaves each log as it was, and whether each application has ended.
pub fn keeps_logs()
    ensures logs { (posts after : List PlainPost) → AllZip HasHeard posts after → logs_of after ≡ logs_of posts }
    ensures done { (posts after : List PlainPost) → AllZip HasHeard posts after → are_done after ≡ are_done posts }
{}

/// A record of the posts after so many rounds was made in rounds.
pub fn shows_rounds()
    ensures { (scene : PlainScene) (r : PlainRecord) (posts : List PlainPost) → HaveMadeRounds r.rounds (parties_of scene) (logs_of posts) → HaveRunFrom (parties_of scene) posts → r.finished ≡ are_done posts → AreLoggedBy posts r.parties → IsMadeInRounds scene r }
{}
