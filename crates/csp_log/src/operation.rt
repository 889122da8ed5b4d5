//! The one operation of a turn, and what it is answered.

use crate::{Item, QueueId};
use csp_buffer::Buffer;

/// What a party asks of its deck in one turn.
pub enum Op {
    /// No operation.
    Nothing,
    /// A buffer of the pool.
    Take,
    /// To put a buffer back into the pool.
    Give(Buffer),
    /// To append an item to a queue.
    Push(QueueId, Item),
    /// The first item of a queue. Of the inbox: of the first of its four queues that has one.
    Pop(QueueId),
}

/// What the deck answers.
pub enum Answer {
    /// No operation was asked.
    Nothing,
    /// A buffer of the pool, cleared.
    Taken(Buffer),
    /// The pool was empty.
    NoBuffer,
    /// The buffer is in the pool.
    Given,
    /// The pool was full: the buffer comes back.
    PoolFull(Buffer),
    /// The item is in the queue.
    Pushed,
    /// The queue was full: the item comes back.
    Full(Item),
    /// The first item.
    Popped(Item),
    /// The queue was empty.
    Empty,
}
