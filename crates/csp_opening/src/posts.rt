//! The parties with what they have in hand.

ghost use Rattle.std.specs.Prelude.{◌≡◌, ◌+◌, ◌≤◌, ◌++◌, length, vec_len, vec_capacity};
ghost use Rattle.std.specs.List.{AllByRecursion};
ghost use Rattle.csp_opening.specs.Parted.{IsOpening};
ghost use Rattle.csp_opening.specs.Posted.{CanPost, CanPostAll, post_with, posts_with};

use crate::homes::{Lead, home_of};
use crate::next::next;
use crate::unposted::Unposted;
use csp_ends::{Ends, Home, Side};
use csp_posts::Post;
use std::alloc::Global;
use std::collections::VecDeque;

impl Unposted {
    /// The party with these ends of queues in hand.
    fn post(self, alloc: Global, ends: Ends) -> Post
        requires { CanPost self ends }
        ensures { result ≡ post_with self ends }
    {
        let Unposted {
            who,
            party,
            desk,
            numbers,
        } = self;
        Post::new(alloc, who, party, desk, ends, numbers)
    }
}

/// Appends parties as posts, each with its passes and its ends of lanes: routers and bridges have those passes that are left, in their order.
pub(crate) fn post_all(
    alloc: Global,
    unposted: Vec<Unposted>,
    leads: Vec<Lead>,
    homes: Vec<Option<Home>>,
    sides: Vec<Vec<Side>>,
    posts: &mut Vec<Post>,
)
    requires opening { AllByRecursion IsOpening leads.items }
    requires can { CanPostAll leads.items unposted.items homes.items sides.items }
    requires room { vec_len posts.old + length unposted.items ≤ vec_capacity posts.old }
    ensures { posts.new.items ≡ posts.old.items ++ posts_with leads.items unposted.items homes.items sides.items }
{
    let mut leads = VecDeque::from_vec(leads);
    let mut homes = VecDeque::from_vec(homes);
    let mut sides = VecDeque::from_vec(sides);
    let mut unposted = VecDeque::from_vec(unposted);
    while let Some(one) = unposted.pop_front() {
        let home = home_of(one.who, &mut leads, next(&mut homes));
        let sides = next(&mut sides);
        posts.push_reserved(one.post(alloc, Ends { home, sides }));
    }
    unposted.destroy_empty();
}
