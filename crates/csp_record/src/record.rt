//! What a run did, and where everything was when it ended.

use crate::{HeldBy, Left, Who};
use csp_log::Log;
use std::marker::Model;

/// The log of one party.
#[derive(Drop)]
pub struct PartyLog {
    /// Whose log it is.
    pub who: Who,
    /// Its turns, the oldest first.
    pub log: Log,
    /// The number of an application's present step at the end, from 1; 0 where it has ended, and for
    /// every other party.
    pub step: u32,
}

impl Model for PartyLog {
    ghost use Rattle.csp_record.specs.Record.{PlainPartyLog};

    ghost Value = { PlainPartyLog };

    ghost view = { λ p. record { who = p.who; entries = p.log.entries; step = p.step } };
}

/// What a run did. Contracts see it as plain lists and numbers with the same fields.
#[derive(Drop)]
pub struct Record {
    /// The log of each party, in the order of the parties.
    pub parties: Vec<PartyLog>,
    /// What was left in each queue.
    pub left: Vec<Left>,
    /// Which buffers each place held: the pool, each queue and each party of each node.
    pub held: Vec<HeldBy>,
    /// The rounds made.
    pub rounds: u64,
    /// Whether every application had ended.
    pub finished: bool,
}

impl Model for Record {
    ghost use Rattle.csp_record.specs.Record.{PlainRecord};

    ghost Value = { PlainRecord };

    ghost view = { λ r. record {
      parties = r.parties.items;
      left = r.left.items;
      held = r.held.items;
      rounds = r.rounds;
      finished = r.finished;
    } };
}
