//! The passes of the pools and the inboxes, and who has them.

ghost use Rattle.std.specs.Prelude.{◌≡◌, ◌+◌, ◌≤◌, ◌++◌, Some, IsSome, IsSomeAnd, length, map, slice_get, vec_len, vec_capacity};
ghost use Rattle.std.specs.List.{AllByRecursion};
ghost use Rattle.std.specs.Option.{option_map};
ghost use Rattle.csp_inbox.specs.Passes.{IsFree};
ghost use Rattle.csp_opening.specs.Parted.{AreLeadsOf, CanPart, CanPartAll, IsLeadOf, IsOpening, after_app, after_iface, app_home, changed, home_with, iface_home, lead_home, leads_past, part_home, part_homes, part_left, parts_left};

use crate::unposted::Unposted;
use csp_ends::{Home, InboxEnd, NodeQueues, Queues};
use csp_inbox::InboxPass;
use csp_pool::PoolPass;
use csp_record::Who;
use csp_topology::mark_for;
use std::collections::VecDeque;

/// The passes of a node's router or bridge, which are those that opened its pool and its inbox.
#[derive(Drop)]
pub(crate) struct Lead {
    /// That of the pool.
    pub pool: PoolPass,
    /// That of the inbox.
    pub inbox: InboxPass,
}

impl Lead {
    /// The home of the router or bridge of the node at this place, which puts with this mark.
    fn home(self, node: u8, mark: u8) -> Home
        requires opens { IsOpening self }
        requires mark { self.inbox.role.mark ≡ mark }
        ensures { result ≡ lead_home node self }
    {
        let Lead { pool, inbox } = self;
        Home {
            node,
            pool,
            inbox: Some(InboxEnd {
                mark,
                reads: true,
                pass: inbox,
            }),
        }
    }

    /// That of an interface, which puts with this mark.
    fn iface(&mut self, queues: &NodeQueues, node: u8, mark: u8) -> Home
        requires of_it { IsLeadOf queues.now self.old }
        requires free { IsFree self.old.inbox mark }
        ensures home { result ≡ iface_home node mark self.old }
        ensures left { self.new ≡ after_iface mark self.old }
    {
        Home {
            node,
            pool: queues.pool.split(&mut self.pool),
            inbox: Some(InboxEnd {
                mark,
                reads: false,
                pass: queues.inbox.split(&mut self.inbox, mark),
            }),
        }
    }

    /// That of an application.
    fn app(&mut self, queues: &NodeQueues, node: u8) -> Home
        requires of_it { IsLeadOf queues.now self.old }
        ensures home { result ≡ app_home node self.old }
        ensures left { self.new ≡ after_app self.old }
    {
        Home {
            node,
            pool: queues.pool.split(&mut self.pool),
            inbox: None,
        }
    }
}

/// Splits off the passes of all parties but routers and bridges.
pub(crate) fn part_passes(
    queues: &Queues,
    unposted: &[Unposted],
    leads: &mut Vec<Lead>,
    homes: &mut Vec<Option<Home>>,
)
    requires of_it { AreLeadsOf queues.now leads.old.items }
    requires can { CanPartAll leads.old.items (map (λ s. s.who) unposted.now) }
    requires room { vec_len homes.old + length unposted.now ≤ vec_capacity homes.old }
    ensures homes { homes.new.items ≡ homes.old.items ++ part_homes leads.old.items (map (λ s. s.who) unposted.now) }
    ensures leads { leads.new.items ≡ parts_left leads.old.items (map (λ s. s.who) unposted.now) }
{
    for one in unposted {
        homes.push_reserved(part_pass(queues, one.who, leads));
    }
}

/// Splits off those of one party. A link has none.
fn part_pass(queues: &Queues, who: Who, leads: &mut Vec<Lead>) -> Option<Home>
    requires of_it { AreLeadsOf queues.now leads.old.items }
    requires can { CanPart leads.old.items who }
    ensures home { result ≡ part_home leads.old.items who }
    ensures leads { leads.new.items ≡ part_left leads.old.items who }
    ensures of_it { AreLeadsOf queues.now leads.new.items }
{
    match who {
        Who::Iface(node, _) => Some(part_iface(queues, node, mark_for(who)?, leads)),
        Who::App(node, _) => Some(part_app(queues, node, leads)),
        Who::Router(_) | Who::Bridge(_) | Who::Link(_) => None,
    }
}

/// Splits off those of an interface, which puts with this mark.
fn part_iface(queues: &Queues, node: u8, mark: u8, leads: &mut Vec<Lead>) -> Home
    requires of_it { AreLeadsOf queues.now leads.old.items }
    requires can { IsSomeAnd (slice_get leads.old.items node) (λ l. IsFree l.inbox mark) }
    ensures home { option_map (iface_home node mark) (slice_get leads.old.items node) ≡ Some result }
    ensures leads { leads.new.items ≡ changed node (after_iface mark) leads.old.items }
    ensures of_it { AreLeadsOf queues.now leads.new.items }
{
    let place = usize::from(node);
    leads[place].iface(&queues.nodes[place], node, mark)
}

/// Splits off that of an application.
fn part_app(queues: &Queues, node: u8, leads: &mut Vec<Lead>) -> Home
    requires of_it { AreLeadsOf queues.now leads.old.items }
    requires can { IsSome (slice_get leads.old.items node) }
    ensures home { option_map (app_home node) (slice_get leads.old.items node) ≡ Some result }
    ensures leads { leads.new.items ≡ changed node after_app leads.old.items }
    ensures of_it { AreLeadsOf queues.now leads.new.items }
{
    let place = usize::from(node);
    leads[place].app(&queues.nodes[place], node)
}

/// The home of a party: of a router or a bridge the passes that come next, of any other what was split off for it.
pub(crate) fn home_of(who: Who, leads: &mut VecDeque<Lead>, parted: Option<Home>) -> Option<Home>
    requires { AllByRecursion IsOpening leads.old.items }
    ensures home { result ≡ home_with leads.old.items who parted }
    ensures leads { leads.new.items ≡ leads_past leads.old.items who }
{
    match who {
        Who::Router(node) | Who::Bridge(node) => Some(
            leads.pop_front()?.home(node, mark_for(who)?),
        ),
        Who::Iface(_, _) | Who::App(_, _) | Who::Link(_) => parted,
    }
}
