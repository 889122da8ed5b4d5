//! What was where when a run ended.

use crate::{ItemShown, Place, QueueId};
use std::marker::Model;

/// What was left in one queue of a node.
#[derive(Drop)]
pub struct Left {
    /// The place of the node among the nodes.
    pub node: u8,
    /// The queue.
    pub queue: QueueId,
    /// Of the inbox the priority, 0 to 3; of a lane 0.
    pub prio: u8,
    /// Pictures of its items, the first first.
    pub items: Vec<ItemShown>,
}

impl Model for Left {
    ghost use Rattle.csp_log.specs.Remains.{PlainLeft};

    ghost Value = { PlainLeft };

    ghost view = { λ l. record { node = l.node; queue = l.queue; prio = l.prio; items = l.items.items } };
}

/// Which buffers one place of a node held.
#[derive(Drop)]
pub struct HeldBy {
    /// The place of the node among the nodes.
    pub node: u8,
    /// Who held them.
    pub place: Place,
    /// The numbers of the buffers.
    pub numbers: Vec<u16>,
}

impl Model for HeldBy {
    ghost use Rattle.csp_log.specs.Remains.{PlainHeld};

    ghost Value = { PlainHeld };

    ghost view = { λ h. record { node = h.node; place = h.place; numbers = h.numbers.items } };
}
