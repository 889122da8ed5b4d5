//! What a party asks in one turn, what it is answered and what it reports; the items and the queues
//! that this is about; and the log of its turns.
#![tactic(auto)]

mod deeds;
mod draft;
mod entry;
mod event;
mod frame;
mod framed;
mod item;
mod log;
mod moved;
mod note;
mod noted;
mod operation;
mod places;
mod remains;
mod row;
mod rows;
mod shown;
mod spares;
mod weights;
mod who;

pub use draft::Draft;
pub use entry::Entry;
pub use event::{Discard, Event, Events, MAX_EVENTS};
pub use frame::Frame;
pub use framed::{Framed, Piece};
pub use item::Item;
pub use log::Log;
pub use moved::{LoggedPacket, Moved};
pub use note::{Note, Why};
pub use noted::Noted;
pub use operation::{Answer, Op};
pub use places::{
    Carries, DOWN_ROOM, End, IFACES, LINK_ENDS, LINK_ROOM, LinkKind, MAX_DATA, OUT_ROOM, Place,
    QueueId, Rule, UNMARKED, UP_ROOM,
};
pub use remains::{HeldBy, Left};
pub use shown::{AnswerShown, ItemShown, OpShown};
pub use spares::{BoxedFrame, Spares};
pub use weights::{MAX_WEIGHT, WEIGHT_BYTES};
pub use who::Who;
