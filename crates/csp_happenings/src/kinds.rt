//! The things that happen in a run.

use crate::fates::Fate;
use csp_base::Trace;
use csp_log::{Event, Note, Piece};
use csp_record::Who;

/// What a packet is to its reliable connection.
#[derive(Clone, Copy)]
pub enum Kind {
    /// It opens the connection.
    Syn,
    /// It resets the connection.
    Rst,
    /// It lists what came out of order.
    Eak,
    /// It only acknowledges.
    Ack,
    /// It has data.
    Data,
    /// It is too short to tell.
    Short,
}

/// What is told of a packet.
#[derive(Clone, Copy)]
pub struct Parcel {
    /// Its header word.
    pub header: u32,
    /// How many bytes its payload has.
    pub len: usize,
    /// What it is to its reliable connection, where its trace has a tag.
    pub kind: Kind,
    /// Its trace.
    pub trace: Trace,
}

/// What happened.
#[derive(Clone, Copy)]
pub enum What {
    /// An application asked this of its router.
    Asked(Note),
    /// An application was told this by its router.
    Told(Note),
    /// An application sent a packet, with this mark: a slot, or `UNMARKED` where it is sent as it is.
    Sent {
        mark: u8,
        packet: Parcel,
    },
    /// An application took a packet, with this mark: its slot.
    Took {
        mark: u8,
        packet: Parcel,
    },
    /// A router told this application of its node this.
    Answered {
        app: u8,
        note: Note,
    },
    /// An interface began the transmission of this serial; `again` where it had transmitted a packet with the same number
    /// of a flow of its own node before.
    Transmitted {
        serial: u64,
        again: bool,
        packet: Option<Parcel>,
    },
    /// An interface put a packet into the inbox of its node.
    Accepted(Parcel),
    /// A link or a hub took the frame of this number, counted from 1, from this end; its plan has this fate for it.
    Carried {
        end: u8,
        number: u64,
        fate: Fate,
        frame: Piece,
    },
    /// A link or a hub handed a frame on to this end.
    HandedOn {
        end: u8,
        frame: Piece,
    },
    /// A party reported this, where its turn moved that packet, if it moved one.
    Reported {
        event: Event,
        packet: Option<Parcel>,
    },
}

/// One thing that happened, in a turn of this party at this time, which is the number of rounds completed before.
#[derive(Clone, Copy)]
pub struct Happening {
    /// When.
    pub time: u64,
    /// Whose turn it was.
    pub who: Who,
    /// What happened.
    pub what: What,
}
