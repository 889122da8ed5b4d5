//! The deck that serves a party, one operation a turn, over plain lists or over queues that others
//! use at the same time; what a party is; and one turn of it.
#![tactic(auto)]

mod deck;
mod desk;
mod hand;
mod party;
mod pile;
mod turns;

pub use csp_log::{
    Answer, AnswerShown, BoxedFrame, Carries, DOWN_ROOM, Discard, Draft, End, Entry, Event, Events,
    Frame, HeldBy, IFACES, Item, ItemShown, LINK_ENDS, LINK_ROOM, Left, LinkKind, Log, MAX_DATA,
    MAX_EVENTS, Note, OUT_ROOM, Op, OpShown, Place, QueueId, Rule, Spares, UNMARKED, UP_ROOM, Why,
};
pub use deck::Deck;
pub use desk::Desk;
pub use hand::Hand;
pub use party::{Circle, MAX_CIRCLE, Party};
pub use pile::Pile;
pub use turns::turn;
