//! Parties that take no turn any more.

ghost use Rattle.std.specs.Prelude.{◌≡◌, ◌≤◌, [], All, length, map, vec_capacity};
ghost use Rattle.csp_closing.specs.Retired.{IsFresh, retired_of, to_retire};

use csp_posts::{Post, Retired};
use std::collections::VecDeque;

/// Takes these parties out of their run, to those that are.
pub(crate) fn retire(posts: Vec<Post>, retired: &mut Vec<Retired>)
    requires none { retired.old.items ≡ [] }
    requires room { length posts.items ≤ vec_capacity retired.old }
    ensures posts { map retired_of retired.new.items ≡ map to_retire posts.items }
    ensures fresh { All IsFresh retired.new.items }
{
    let mut posts = VecDeque::from_vec(posts);
    while let Some(post) = posts.pop_front() {
        retired.push_reserved(post.retire());
    }
    posts.destroy_empty();
}
