//! The table of states: which of its rows a packet comes to.

ghost use Rattle.std.specs.Prelude.{◌≡◌};

/// A row of the table of states: what happens to a packet.
#[derive(Clone, Copy)]
pub enum StateRow {
    /// The connection has no use for it.
    Stray,
    /// In SynSent, a reset: the connection is refused.
    Refused,
    /// In SynSent, the answer: the connection is open.
    Answered,
    /// In SynRcvd, the first packet once more: its answer is owed again.
    Repeated,
    /// In Open, the first packet once more: an acknowledgement is owed.
    Late,
    /// A reset in sequence, and nothing is kept before it: the connection is closed.
    Reset,
    /// A reset in sequence, of this index: the connection is closed once all before it is delivered.
    ResetAt(u64),
    /// What breaks the connection off.
    Broken,
    /// In CloseWait, a reset: the connection is closed.
    Ended,
    /// An acknowledgement without data.
    Acknowledges,
    /// An acknowledgement with a list.
    Lists,
    /// Data outside the window.
    Outside,
    /// Data that is kept already.
    Duplicate,
    /// Data of this index, which is kept from now on.
    Data(u64),
}

impl StateRow {
    ghost use Rattle.csp_rdp.specs.Table.{is_stray};

    /// Whether the connection has no use for the packet.
    pub fn is_stray(self) -> bool
        ensures { result ≡ is_stray self }
    {
        matches!(
            self,
            StateRow::Stray | StateRow::Late | StateRow::Outside | StateRow::Duplicate
        )
    }
}
