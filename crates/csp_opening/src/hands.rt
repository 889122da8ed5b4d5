//! What the parties will have in hand, and how they get it.

ghost use Rattle.std.specs.Prelude.{◌≡◌, ◌+◌, ◌≤◌, ◌++◌, length, map, vec_len, vec_capacity};
ghost use Rattle.csp_opening.specs.Whole.{CanHandOut, posts_among};

use crate::homes::{Lead, part_passes};
use crate::lanes::Pair;
use crate::posts::post_all;
use crate::sides::hand_out;
use crate::unposted::Unposted;
use csp_ends::{Home, Queues, Side};
use csp_posts::Post;
use std::alloc::Global;

/// The passes and the ends of lanes of all nodes, and the lists of who has them.
#[derive(Drop)]
pub(crate) struct Hands {
    /// The passes that opened the pool and the inbox of each node.
    pub leads: Vec<Lead>,
    /// The ends of the lanes of each node.
    pub ends: Vec<Vec<Pair>>,
    /// The ends of lanes of each party, of which it has none yet.
    pub sides: Vec<Vec<Side>>,
    /// The passes of each party, of which no list has any yet.
    pub homes: Vec<Option<Home>>,
}

impl Hands {
    /// Hands them out to these parties, and appends them as posts.
    pub(crate) fn post(
        self,
        alloc: Global,
        queues: &Queues,
        unposted: Vec<Unposted>,
        posts: &mut Vec<Post>,
    )
        requires can { CanHandOut self queues.now unposted.items }
        requires room { vec_len posts.old + length unposted.items ≤ vec_capacity posts.old }
        ensures { posts.new.items ≡ posts.old.items ++ posts_among (map (λ pairs. pairs.items) self.ends.items) self.leads.items unposted.items }
    {
        let Hands {
            mut leads,
            ends,
            mut sides,
            mut homes,
        } = self;
        hand_out(ends, &mut sides);
        part_passes(queues, &unposted, &mut leads, &mut homes);
        post_all(alloc, unposted, leads, homes, sides, posts);
    }
}
