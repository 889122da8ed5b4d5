//! What a party of a threaded run has in hand.

use csp_deck::QueueId;
use csp_inbox::InboxPass;
use csp_lane::{Consumer, Producer};
use csp_pool::PoolPass;
use std::marker::Model;

/// One end of a lane.
#[derive(Drop)]
pub enum LaneEnd {
    /// The end that puts.
    Puts(Producer),
    /// The end that gets.
    Gets(Consumer),
}

/// An end of a lane in a party's hand. Contracts see it as a `PlainSide`.
#[derive(Drop)]
pub struct Side {
    /// What the party calls the lane.
    pub queue: QueueId,
    /// The node whose lane it is, by its place among the nodes.
    pub node: u8,
    /// Which of that node's lanes it is.
    pub lane: u8,
    /// The end itself.
    pub end: LaneEnd,
}

impl Model for Side {
    ghost use Rattle.csp_ends.specs.Ends.{PlainSide};
    ghost use Rattle.csp_ends.specs.Seen.{puts_there, plain_end};

    ghost Value = { PlainSide };

    ghost view = { λ s. record { queue = s.queue; node = s.node; lane = s.lane; puts = puts_there s.end; end = plain_end s.end } };
}

/// A party's pass of its node's inbox, with what of it must be known at run time. Contracts see the pass alone.
#[derive(Drop)]
pub struct InboxEnd {
    /// The mark of what it puts.
    pub mark: u8,
    /// Whether it may get: it is the opening pass.
    pub reads: bool,
    /// The pass itself.
    pub pass: InboxPass,
}

impl Model for InboxEnd {
    ghost use Rattle.std.specs.Prelude.{◌≡◌};
    ghost use Rattle.csp_inbox.specs.Passes.{PlainPass};

    ghost Value = { PlainPass };

    ghost view = { λ e. e.pass };

    ghost invariant = { λ e. (e.pass.role.mark ≡ e.mark) × (e.pass.role.reads ≡ e.reads) };
}

/// A party's passes of its own node. Contracts see it as a `PlainHome`.
#[derive(Drop)]
pub struct Home {
    /// The node, by its place among the nodes.
    pub node: u8,
    /// The pass of its pool.
    pub pool: PoolPass,
    /// The pass of its inbox, which a router, a bridge or an interface has.
    pub inbox: Option<InboxEnd>,
}

impl Model for Home {
    ghost use Rattle.csp_ends.specs.Ends.{PlainHome};

    ghost Value = { PlainHome };

    ghost view = { λ h. record { node = h.node; pool = h.pool; inbox = h.inbox } };
}

/// All that a party has in hand. Contracts see it as `PlainEnds`.
#[derive(Drop)]
pub struct Ends {
    /// Its passes of its own node, which a link has none of.
    pub home: Option<Home>,
    /// Its ends of lanes.
    pub sides: Vec<Side>,
}

impl Model for Ends {
    ghost use Rattle.csp_ends.specs.Ends.{PlainEnds};

    ghost Value = { PlainEnds };

    ghost view = { λ e. record { home = e.home; sides = e.sides.items } };
}
