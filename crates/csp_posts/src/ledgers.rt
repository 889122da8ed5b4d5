//! The books of the pools, which turns and meetings keep.

ghost use Rattle.std.specs.Prelude.{ℕ, List};
ghost use Rattle.std.specs.List.{AllZip};
ghost use Rattle.csp_ends.specs.Ends.{PlainNodeQueues};
ghost use Rattle.csp_posts.specs.Books.{AreInBooks};
ghost use Rattle.csp_posts.specs.Posts.{AreTurns, PlainPost};

/// Turns of all parties keep the books of the pools.
#[tactic(auto, using(crate::proofs::TurnsBooks::turns_keep))]
pub fn turns_keep_books()
    ensures { (nodes : List PlainNodeQueues) (time count : ℕ) (posts after : List PlainPost) → AllZip (AreTurns nodes time count) posts after → AreInBooks posts → AreInBooks after }
{}
