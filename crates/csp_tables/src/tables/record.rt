//! How many stale copies a record tells of, how many packets passed a link changed, and what the entries of a log weigh:
//! `stale EVENT; EVENT ..`, `passed DEED; DEED ..` and `weight DEED; DEED ..`.
//!
//! An event is `PEER TAG CUR UNA`, where a packet with this tag is handed to a connection with this peer. A peer is
//! `NODE.NUMBER`, a tag `NODE.NUMBER.INDEX.ACK`, or `-` for none.
//!
//! A deed is `PARTY sent SERIAL HEADER PAYLOAD`, a transmission of this number begins, or `PARTY came ORIGIN HEADER
//! PAYLOAD`, a packet is put into an inbox, with the origin `NODE.SERIAL` or `-` for none. The parties are `a` and
//! `b`, the interfaces of two nodes, `a2`, a second log of `a`, and `r`, a router.

use crate::supply::{Supply, leave};
use csp_base::{Origin, Tag, Trace};
use csp_buffer::Buffer;
use csp_cases::Case;
use csp_log::{Answer, Draft, Event, Events, Item, Log, Op, QueueId, UNMARKED};
use csp_record::{PartyLog, Record, Who};
use std::alloc::Global;

/// The parties of a record of deeds, by their names.
const PARTIES: [(&str, Who); 4] = [
    ("a", Who::Iface(0, 0)),
    ("b", Who::Iface(1, 0)),
    ("r", Who::Router(1)),
    ("a2", Who::Iface(0, 0)),
];

/// A log that is written, and what it takes to write it.
#[derive(Drop)]
struct Writing {
    log: Log,
    draft: Draft,
    supply: Supply,
}

/// Tells how many of the events tell of a stale copy, where each of two parties reported them.
pub(super) fn stale(case: &mut Case) {
    let Some(mut writing) = Writing::open(case.alloc()) else {
        return case.lacks_memory();
    };
    for text in case.rest().split(";") {
        case.turn_to(text);
        let event = handed(case);
        writing.append(case, &[event, Event::Starved]);
    }
    let mut record = record(case.alloc());
    let (who, log) = (Who::Router(0), writing.log);
    match record.parties.push(PartyLog { who, log, step: 0 }) {
        Ok(()) => case.tell_number(csp_record::stale(&record)),
        Err(_) => case.lacks_memory(),
    }
}

/// The record of a run without parties.
fn record(alloc: Global) -> Record {
    Record {
        parties: Vec::new(alloc),
        left: Vec::new(alloc),
        held: Vec::new(alloc),
        rounds: 0,
        finished: true,
    }
}

/// The event of a packet that was handed to a connection.
fn handed(case: &mut Case) -> Event {
    Event::Handed {
        nth: 7,
        peer: peer(case),
        tag: tag(case),
        cur: case.long(),
        una: case.long(),
    }
}

/// A flow, or none: a node and the number of a connection there.
fn peer(case: &mut Case) -> Option<(u8, u32)> {
    if case.passes("-") {
        return None;
    }
    let node = case.word_to(".");
    Some((case.small_of(node), case.number()))
}

/// A tag, or none: a flow, an index and an acknowledged index.
fn tag(case: &mut Case) -> Option<Tag> {
    if case.passes("-") {
        return None;
    }
    let (node, nth, index) = (case.word_to("."), case.word_to("."), case.word_to("."));
    Some(Tag {
        node: case.small_of(node),
        nth: case.number_of(nth),
        index: case.long_of(index),
        ack: case.long(),
    })
}

/// An origin at the first interface of a node, or none.
fn origin(case: &mut Case) -> Option<Origin> {
    if case.passes("-") {
        return None;
    }
    let node = case.word_to(".");
    Some(Origin {
        node: case.small_of(node),
        iface: 0,
        serial: case.long(),
    })
}

/// Tells how many packets passed.
pub(super) fn passed(case: &mut Case) {
    let deeds = case.rest();
    let mut record = record(case.alloc());
    for (name, who) in PARTIES {
        let log = written(case, deeds, Some(name));
        if record.parties.push(PartyLog { who, log, step: 0 }).is_err() {
            case.lacks_memory();
        }
    }
    match csp_record::passed(case.alloc(), &record) {
        Ok(count) => case.tell_number(count),
        Err(_) => case.lacks_memory(),
    }
}

/// Tells what the entries of these deeds weigh together, in one log.
pub(super) fn weight(case: &mut Case) {
    let log = written(case, case.rest(), None);
    case.tell_number(log.weight());
}

/// A log with the deeds of a party, or with all.
fn written<'a>(case: &mut Case<'a>, deeds: &'a str, name: Option<&str>) -> Log {
    let Some(mut writing) = Writing::open(case.alloc()) else {
        case.lacks_memory();
        return Log::new(case.alloc());
    };
    for deed in deeds.split(";") {
        case.turn_to(deed);
        let party = case.word();
        if name.unwrap_or(party) == party {
            writing.note(case);
        }
    }
    writing.log
}

impl Writing {
    /// An empty log.
    fn open(alloc: Global) -> Option<Writing> {
        Some(Writing {
            log: Log::new(alloc),
            draft: Draft::open(alloc).ok()?,
            supply: Supply::new(alloc),
        })
    }

    /// Appends an entry with these events.
    fn append(&mut self, case: &mut Case, events: &[Event]) {
        let mut told = Events::new();
        if self.log.len() > 1_000_000 || told.try_extend_from_slice(events).is_err() {
            return case.misread();
        }
        match self.log.reserve(1) {
            Ok(()) => self.log.append(0, &self.draft, &told),
            Err(_) => case.lacks_memory(),
        }
    }

    /// Notes a deed.
    fn note(&mut self, case: &mut Case) {
        match case.word() {
            "sent" => {
                let serial = case.long();
                if let Some(buffer) = self.filled(case, None) {
                    self.draft_sent(buffer);
                }
                self.append(case, &[Event::Transmitted { serial }]);
            }
            "came" => {
                let origin = origin(case);
                if let Some(buffer) = self.filled(case, origin) {
                    self.draft_came(buffer);
                }
                self.append(case, &[]);
            }
            _ => case.misread(),
        }
    }

    /// A buffer with the packet that is asked, and this origin.
    fn filled(&mut self, case: &mut Case, origin: Option<Origin>) -> Option<Buffer> {
        let header = case.hex_word();
        let payload = case.bytes();
        let Some(mut buffer) = self.supply.take() else {
            case.lacks_memory();
            return None;
        };
        buffer.set_header(header);
        let _room = buffer.push_tail(payload.as_slice());
        buffer.set_trace(Trace {
            origin,
            hops: 1,
            tag: None,
        });
        Some(buffer)
    }

    /// Notes that a packet was popped from an `Out`.
    fn draft_sent(&mut self, buffer: Buffer) {
        self.draft.ask(&Op::Pop(QueueId::Out(0)));
        let answer = Answer::Popped(Item::Packet {
            mark: UNMARKED,
            buffer,
        });
        self.draft.answer(&answer);
        leave(answer);
    }

    /// Notes that a packet was put into the inbox.
    fn draft_came(&mut self, buffer: Buffer) {
        let op = Op::Push(QueueId::Inbox, Item::Packet { mark: 0, buffer });
        self.draft.ask(&op);
        leave(op);
    }
}
