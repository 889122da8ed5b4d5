//! The meeting of the leader of a node and another party of it.

ghost use Rattle.std.specs.Prelude.{◌≡◌, true, IfSome};
ghost use Rattle.csp_ends.specs.Ends.{IsHomeOf};
ghost use Rattle.csp_meeting.specs.Meeting.{HaveMetAtHome, HaveMetHomes, HaveMetInboxes, InformsAt, Informs, KeepCounts, KeepCountsAt, KnowsMoreHome, KnowsMoreHomes, KnowsMoreInbox, leads, reads_inbox, IsOfNode};
ghost use Rattle.csp_inbox.specs.Passes.{IsPassOf};

use csp_ends::{Home, InboxEnd, NodeQueues, Queues};
use csp_inbox::Inbox;

/// Lets the leader of a node meet another party of it, where they are such.
pub(crate) fn meet_homes(queues: &Queues, first: &mut Option<Home>, second: &mut Option<Home>)
    requires of_it { (IfSome first.old (IsHomeOf queues.now)) × (IfSome second.old (IsHomeOf queues.now)) }
    ensures first { KnowsMoreHomes first.old first.new }
    ensures second { KnowsMoreHomes second.old second.new }
    ensures met { HaveMetHomes first.new second.new }
    ensures informs { Informs first.old second.new }
    ensures counts { KeepCounts first.old second.old first.new second.new }
{
    if let (Some(leader), Some(other)) = (first, second) {
        if leader.node == other.node && leads(leader) {
            meet_home(&queues.nodes[usize::from(leader.node)], leader, other);
        }
    }
}

/// Lets the leader of this node meet another party of it.
fn meet_home(node: &NodeQueues, leader: &mut Home, other: &mut Home)
    requires of_it { IsOfNode node.now leader.old × IsOfNode node.now other.old }
    requires leads { leads leader.old ≡ true }
    ensures leader { KnowsMoreHome leader.old leader.new }
    ensures other { KnowsMoreHome other.old other.new }
    ensures met { HaveMetAtHome leader.new other.new }
    ensures informs { InformsAt leader.old other.new }
    ensures counts { KeepCountsAt leader.old other.old leader.new other.new }
{
    node.pool.meet(&mut leader.pool, &mut other.pool);
    meet_inbox(&node.inbox, &mut leader.inbox, &mut other.inbox);
}

/// Lets the reader of an inbox meet another that has a pass of it.
fn meet_inbox(inbox: &Inbox, reader: &mut Option<InboxEnd>, other: &mut Option<InboxEnd>)
    requires of_it { (IfSome reader.old (IsPassOf inbox.now)) × (IfSome other.old (IsPassOf inbox.now)) }
    requires reads { reads_inbox reader.old ≡ true }
    ensures reader { KnowsMoreInbox reader.old reader.new }
    ensures other { KnowsMoreInbox other.old other.new }
    ensures met { HaveMetInboxes reader.new other.new }
{
    if let (Some(reader), Some(other)) = (reader, other) {
        inbox.meet(&mut reader.pass, &mut other.pass);
    }
}

/// Whether a party leads its node: it has the pass that reads the inbox.
fn leads(home: &Home) -> bool
    ensures { result ≡ leads home.now }
{
    match &home.inbox {
        Some(end) => end.reads,
        None => false,
    }
}
