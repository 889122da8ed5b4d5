//! Pictures of items, operations and answers, for a log.

ghost use Rattle.std.specs.Prelude.{◌≡◌};
ghost use Rattle.csp_log.specs.Pictures.{shown_item, shown_op, shown_answer, turn_of};

use crate::{Answer, Frame, Item, Note, Op, QueueId};
use csp_base::Turn;
use csp_buffer::Shown;

/// A picture of an item.
#[derive(Drop)]
pub enum ItemShown {
    Packet { mark: u8, buffer: Shown },
    Frame(Frame),
    Note(Note),
}

/// A picture of an operation.
#[derive(Drop)]
pub enum OpShown {
    Nothing,
    Take,
    Give(Shown),
    Push(QueueId, ItemShown),
    Pop(QueueId),
}

/// A picture of an answer.
#[derive(Drop)]
pub enum AnswerShown {
    Nothing,
    Taken(Shown),
    NoBuffer,
    Given,
    PoolFull(Shown),
    Pushed,
    Full(ItemShown),
    Popped(ItemShown),
    Empty,
}

impl Item {
    /// A picture of it as it stands.
    pub fn show(&self) -> ItemShown
        ensures { result ≡ shown_item self.now }
    {
        match self {
            Item::Packet { mark, buffer } => ItemShown::Packet {
                mark: *mark,
                buffer: buffer.show(),
            },
            Item::Frame(frame) => ItemShown::Frame(frame.frame().copy()),
            Item::Note(note) => ItemShown::Note(*note),
        }
    }
}

impl Op {
    /// A picture of it as it stands.
    pub fn show(&self) -> OpShown
        ensures { result ≡ shown_op self.now }
    {
        match self {
            Op::Nothing => OpShown::Nothing,
            Op::Take => OpShown::Take,
            Op::Give(buffer) => OpShown::Give(buffer.show()),
            Op::Push(queue, item) => OpShown::Push(*queue, item.show()),
            Op::Pop(queue) => OpShown::Pop(*queue),
        }
    }
}

impl Answer {
    /// A picture of it as it stands.
    pub fn show(&self) -> AnswerShown
        ensures { result ≡ shown_answer self.now }
    {
        match self {
            Answer::Nothing => AnswerShown::Nothing,
            Answer::Taken(buffer) => AnswerShown::Taken(buffer.show()),
            Answer::NoBuffer => AnswerShown::NoBuffer,
            Answer::Given => AnswerShown::Given,
            Answer::PoolFull(buffer) => AnswerShown::PoolFull(buffer.show()),
            Answer::Pushed => AnswerShown::Pushed,
            Answer::Full(item) => AnswerShown::Full(item.show()),
            Answer::Popped(item) => AnswerShown::Popped(item.show()),
            Answer::Empty => AnswerShown::Empty,
        }
    }

    /// Whether a turn with this answer did something, or was idle.
    pub fn turn(&self) -> Turn
        ensures { result ≡ turn_of (shown_answer self.now) }
    {
        match self {
            Answer::Nothing
            | Answer::NoBuffer
            | Answer::PoolFull(_)
            | Answer::Full(_)
            | Answer::Empty => Turn::Idle,
            Answer::Taken(_) | Answer::Given | Answer::Pushed | Answer::Popped(_) => Turn::Did,
        }
    }
}
