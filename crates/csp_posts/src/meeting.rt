//! The meeting of all parties of a threaded run.

ghost use Rattle.std.specs.Prelude.{◌≡◌, ◌∷◌, ℕ, map};
ghost use Rattle.std.specs.List.{AllByRecursion, AllZip};
ghost use Rattle.csp_ends.specs.Ends.{AreOf};
ghost use Rattle.csp_meeting.specs.Meeting as ends;
ghost use Rattle.csp_posts.specs.Between.{HaveMet};
ghost use Rattle.csp_posts.specs.Books.{AreInBooks};
ghost use Rattle.csp_posts.specs.Meetings.{AllPairs, HasMet, HaveMetPosts, Informs, LeaderKnows, all_puts_for, all_takes_for};

use crate::Post;
use csp_ends::Queues;
use csp_meeting::{meet, meetings_add_up, meetings_keep_ends};

impl Post {
    /// Lets two parties know what the other did. Where the first leads the node of both, it hears what the other did with
    /// the pool and the inbox, and tells it what it knows of all.
    fn meet(&mut self, queues: &Queues, other: &mut Post)
        requires of_it { AreOf queues.now self.old.plain.ends × AreOf queues.now other.old.plain.ends }
        ensures first { HasMet self.old self.new }
        ensures other { HasMet other.old other.new }
        ensures met { HaveMetPosts self.new other.new }
        ensures informs { ends.Informs self.old.plain.ends.home other.new.plain.ends.home }
        ensures counts { ends.KeepCounts self.old.plain.ends.home other.old.plain.ends.home self.new.plain.ends.home other.new.plain.ends.home }
    {
        meetings_keep_ends();
        meet(queues, &mut self.ends, &mut other.ends);
    }
}

/// Lets all these parties meet, each two of them twice over. Where the books of the pools are right, each then knows what every other
/// did: a leader stands before all others of its node.
pub fn meet_all(queues: &Queues, posts: &mut [Post])
    requires of_it { AllByRecursion (λ s. AreOf queues.now s.plain.ends) posts.old }
    ensures heard { AllZip HasMet posts.old posts.new }
    ensures books { AreInBooks (map (λ s. s.plain) posts.old) → AreInBooks (map (λ s. s.plain) posts.new) }
    ensures met { AreInBooks (map (λ s. s.plain) posts.old) → HaveMet (map (λ s. s.plain) posts.new) }
{
    meetings_keep_ends();
    meetings_add_up();
    sweep(queues, posts);
    sweep(queues, posts);
}

/// Lets each two of these parties meet, in their order.
fn sweep(queues: &Queues, posts: &mut [Post])
    requires of_it { AllByRecursion (λ s. AreOf queues.now s.plain.ends) posts.old }
    ensures heard { AllZip HasMet posts.old posts.new }
    ensures met { AllPairs HaveMetPosts posts.new }
    ensures informs { (puts takes : ℕ → ℕ) → AllByRecursion (LeaderKnows puts takes) posts.old → AllPairs (Informs puts takes) posts.new }
    ensures counts { (node : ℕ) → (all_puts_for node (map (λ s. s.plain) posts.new) ≡ all_puts_for node (map (λ s. s.plain) posts.old)) × (all_takes_for node (map (λ s. s.plain) posts.new) ≡ all_takes_for node (map (λ s. s.plain) posts.old)) }
{
    meetings_keep_ends();
    meetings_add_up();
    if let Some((one, rest)) = posts.split_first_mut() {
        meet_each(queues, one, rest);
        sweep(queues, rest);
    }
}

/// Lets one party meet each of the others.
fn meet_each(queues: &Queues, one: &mut Post, others: &mut [Post])
    requires of_it { AreOf queues.now one.old.plain.ends × AllByRecursion (λ s. AreOf queues.now s.plain.ends) others.old }
    ensures one { HasMet one.old one.new }
    ensures others { AllZip HasMet others.old others.new }
    ensures met { AllByRecursion (HaveMetPosts one.new) others.new }
    ensures informs { (puts takes : ℕ → ℕ) → LeaderKnows puts takes one.old → AllByRecursion (Informs puts takes one.new) others.new }
    ensures counts { (node : ℕ) → (all_puts_for node (one.new.plain ∷ map (λ s. s.plain) others.new) ≡ all_puts_for node (one.old.plain ∷ map (λ s. s.plain) others.old)) × (all_takes_for node (one.new.plain ∷ map (λ s. s.plain) others.new) ≡ all_takes_for node (one.old.plain ∷ map (λ s. s.plain) others.old)) }
{
    meetings_keep_ends();
    meetings_add_up();
    if let Some((other, rest)) = others.split_first_mut() {
        one.meet(queues, other);
        meet_each(queues, one, rest);
    }
}
