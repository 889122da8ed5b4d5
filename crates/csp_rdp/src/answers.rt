//! What a connection is in, and what a call changed.

ghost use Rattle.std.specs.Prelude.{◌≡◌};
ghost use Rattle.csp_rdp.specs.Changes.{change_between};

use csp_buffer::Buffer;

/// The states of a connection.
#[derive(Clone, Copy, Debug)]
pub enum State {
    /// It is over.
    Closed,
    /// Its first packet is on the way, and no answer came.
    SynSent,
    /// Such a packet came, and its answer is not acknowledged.
    SynRcvd,
    /// Data goes both ways.
    Open,
    /// It was broken off, and the reset of the other side is awaited.
    CloseWait,
}

/// Why a connection that was asked for is refused.
#[derive(Clone, Copy, Debug)]
pub enum Cause {
    /// No answer came in time.
    Timeout,
    /// A reset came.
    Reset,
}

/// What a call changed, as far as others must know.
#[derive(Clone, Copy, Debug)]
pub enum Change {
    /// Nothing of that kind.
    None,
    /// The connection is open.
    Opened,
    /// The connection that was asked for is refused: it is closed.
    Refused(Cause),
    /// The connection was open and is not any more, and the application did not close it.
    Down,
    /// The connection, which was not open, is closed.
    Closed,
}

/// What became of a packet that was handed over: its buffer, where it is not kept; what changed; and
/// whether the connection had no use for it.
pub struct Result2 {
    pub back: Option<Buffer>,
    pub change: Change,
    pub stray: bool,
}

/// What a step from one state to another changed, that the application did not ask for. `cause` is the
/// reason that is given where a connection that was asked for is refused.
pub(crate) fn change_between(from: State, to: State, cause: Cause) -> Change
    ensures { result ≡ change_between from to cause }
{
    match (from, to) {
        (State::SynSent | State::SynRcvd, State::Open) => Change::Opened,
        (State::SynSent, State::Closed) => Change::Refused(cause),
        (State::Open, State::CloseWait | State::Closed) => Change::Down,
        (State::SynRcvd | State::CloseWait, State::Closed) => Change::Closed,
        _ => Change::None,
    }
}
