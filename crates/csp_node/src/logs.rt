//! The logs of posts: what their entries weigh, and room for those of a round.

ghost use Rattle.std.specs.Prelude.{◌≡◌, ◌+◌, ◌-◌, ◌^◌, ◌<◌, ◌≤◌, OnOk, length};
ghost use Rattle.std.specs.List.{AllByRecursion, AllZip};
ghost use Rattle.csp_node.specs.Rounds.{IsStill, plains, weight};

use csp_posts::{Post, ROUND_TURNS};
use csp_topology::MAX_PARTIES;
use std::alloc::AllocError;

/// What the entries of all logs weigh together.
pub(crate) fn weight(posts: &[Post]) -> u64
    requires { length posts.now ≤ MAX_PARTIES }
    ensures { result ≡ weight (plains posts.now) }
{
    let mut total = 0;
    for post in posts {
        total += post.entries();
    }
    total
}

/// Makes room in each log for the turns of a round. A refusal leaves the posts as they were but for the room.
///
/// # Errors
/// Want of memory.
pub(crate) fn make_room(posts: &mut [Post]) -> Result<(), AllocError>
    requires { AllByRecursion (λ s. length s.plain.entries + ROUND_TURNS ≤ 2 ^ 32 - 2) posts.old }
    ensures still { AllZip IsStill posts.old posts.new }
    ensures room { OnOk result (AllByRecursion (λ s. ROUND_TURNS ≤ s.spare) posts.new) }
{
    if let Some((post, rest)) = posts.split_first_mut() {
        post.reserve(ROUND_TURNS)?;
        make_room(rest)?;
    }
    Ok(())
}
