//! What parties have in hand of the pool and the inbox of a node, which comes together at the end.

ghost use Rattle.std.specs.Prelude.{◌≡◌, Some, map, IsSome};
ghost use Rattle.std.specs.List.{AllByRecursion};
ghost use Rattle.std.specs.Option.{option_to_list};
ghost use Rattle.csp_closing.specs.Hands.{AreOpen, CanGather, CanJoin, all_joined, gathered, home_at, homes_at, joined, opening, without_home};
ghost use Rattle.csp_closing.specs.Retired.{all_homes, all_rest, all_sides, rest_of};
ghost use Rattle.csp_posts.specs.Between.{is_home};

use crate::passes::Passes;
use csp_ends::{Home, NodeQueues};
use csp_posts::Retired;

/// Takes the passes of this node from the parties that have such: the first has the opening ones, into which the others
/// are joined.
pub(crate) fn take_passes(queues: &NodeQueues, node: u8, parties: &mut [Retired]) -> Passes
    requires { CanGather queues.now (homes_at node (all_homes parties.old)) }
    ensures passes { gathered (homes_at node (all_homes parties.old)) ≡ Some result }
    ensures homes { all_homes parties.new ≡ map (without_home node) (all_homes parties.old) }
    ensures sides { all_sides parties.new ≡ all_sides parties.old }
    ensures rest { all_rest parties.new ≡ all_rest parties.old }
{
    match parties.split_first_mut() {
        Some((party, rest)) => match take_home(party, node) {
            Some(home) => {
                let mut passes = opening_passes(home);
                join_passes(queues, node, &mut passes, rest);
                passes
            }
            None => take_passes(queues, node, rest),
        },
        None => unreachable!(),
    }
}

/// The passes of a party that has both.
fn opening_passes(home: Home) -> Passes
    requires { IsSome (opening home) }
    ensures { opening home ≡ Some result }
{
    let Home {
        node: _,
        pool,
        inbox,
    } = home;
    match inbox {
        Some(end) => Passes {
            pool,
            inbox: end.pass,
        },
        None => unreachable!(),
    }
}

/// Joins the passes of this node that parties have into others.
fn join_passes(queues: &NodeQueues, node: u8, passes: &mut Passes, parties: &mut [Retired])
    requires open { AreOpen queues.now passes.old }
    requires others { AllByRecursion (CanJoin queues.now) (homes_at node (all_homes parties.old)) }
    ensures passes { passes.new ≡ all_joined passes.old (homes_at node (all_homes parties.old)) }
    ensures homes { all_homes parties.new ≡ map (without_home node) (all_homes parties.old) }
    ensures sides { all_sides parties.new ≡ all_sides parties.old }
    ensures rest { all_rest parties.new ≡ all_rest parties.old }
{
    if let Some((party, rest)) = parties.split_first_mut() {
        if let Some(home) = take_home(party, node) {
            join(queues, passes, home);
        }
        join_passes(queues, node, passes, rest);
    }
}

/// Joins the passes of a party into others.
fn join(queues: &NodeQueues, passes: &mut Passes, home: Home)
    requires open { AreOpen queues.now passes.old }
    requires other { CanJoin queues.now home }
    ensures { passes.new ≡ joined passes.old home }
{
    let Home {
        node: _,
        pool,
        inbox,
    } = home;
    queues.pool.join(&mut passes.pool, pool);
    if let Some(end) = inbox {
        queues.inbox.join(&mut passes.inbox, end.pass);
    }
}

/// Takes the passes of a party, where they are of this node.
fn take_home(party: &mut Retired, node: u8) -> Option<Home>
    ensures taken { option_to_list result ≡ home_at node party.old.ends.home }
    ensures home { party.new.ends.home ≡ without_home node party.old.ends.home }
    ensures sides { party.new.ends.sides ≡ party.old.ends.sides }
    ensures rest { rest_of party.new ≡ rest_of party.old }
{
    if is_home(node, &party.ends.home) {
        party.ends.home.take()
    } else {
        None
    }
}

/// Whether these are passes of this node.
fn is_home(node: u8, home: &Option<Home>) -> bool
    ensures { result ≡ is_home node home.now }
{
    match home {
        Some(home) => home.node == node,
        None => false,
    }
}
