//! Who talks to whom: how many packets and bytes went from one port of a node to one of another.

ghost use Rattle.std.specs.Prelude.{◌≡◌, ◌+◌, ◌^◌, ◌++◌, [], length, max, OnOk, OnErr, IfOk, ◌<◌, ◌≤◌};
ghost use Rattle.csp_tap.specs.Words.{words};
ghost use Rattle.csp_tap.specs.Talks.{talk_of, talk_line, talk_lines, talk_words, tally_at, tally_words, with_packet};
ghost use Rattle.csp_tap.specs.declared.words.TheConstants.{ROOM};

use crate::words::{Line, begin_line, end_line, push_line, put_count, put_counted};
use std::alloc::{AllocError, Global};
use std::collections::BTreeMap;
use std::marker::Model;

/// How many talks there can be: 5 bits of source, 5 of destination, 6 of destination port, 6 of source port.
pub const TALKS: u32 = 1 << 22;

/// What went in one talk.
#[derive(Clone, Copy)]
pub struct Tally {
    /// How many packets.
    pub packets: u64,
    /// How many payload bytes they had together.
    pub bytes: u64,
}

impl Tally {
    /// With a packet more, of so many bytes. Memory is wanting exactly where there are more than 64 bits count.
    fn with(self, bytes: u64) -> Result<Tally, AllocError>
        ensures ok { IfOk result (λ tally. tally ≡ record { packets = self.packets + 1; bytes = self.bytes + bytes }) }
        ensures err { OnErr result (2 ^ 64 ≤ max (self.packets + 1) (self.bytes + bytes)) }
    {
        match (self.packets.checked_add(1), self.bytes.checked_add(bytes)) {
            (Some(packets), Some(bytes)) => Ok(Tally { packets, bytes }),
            _ => Err(AllocError),
        }
    }
}

/// The talks, in the order of their numbers. Contracts see them as their list.
#[derive(Drop)]
pub struct Talks {
    map: BTreeMap<u32, Tally>,
}

impl Model for Talks {
    ghost use Rattle.std.specs.Prelude.{List, ℕ};
    ghost use Rattle.csp_tap.specs.declared.talks.Tally.{Tally};

    ghost Value = { List (ℕ × Tally) };

    ghost view = { λ t. t.map.entries };
}

/// The talk of a packet with this header.
fn talk_of(header: u32) -> u32
    ensures value { result ≡ talk_of header }
    ensures range { result < TALKS }
{
    (header >> 8) % TALKS
}

impl Talks {
    /// No packet came.
    pub(crate) fn new(alloc: Global) -> Talks
        ensures { result ≡ [] }
    {
        Talks {
            map: BTreeMap::new(alloc),
        }
    }

    /// What went in a talk.
    fn of(&self, talk: u32) -> Tally
        ensures { result ≡ tally_at self.now talk }
    {
        match self.map.get(&talk) {
            Some(tally) => *tally,
            None => Tally {
                packets: 0,
                bytes: 0,
            },
        }
    }

    /// A packet came with this header and so many bytes.
    pub(crate) fn add(&mut self, header: u32, bytes: u64) -> Result<(), AllocError>
        ensures { OnOk result (self.new ≡ with_packet self.old (talk_of header) bytes) }
    {
        let talk = talk_of(header);
        let tally = self.of(talk).with(bytes)?;
        self.map.insert(talk, tally)?;
        Ok(())
    }

    /// Appends the lines of the talks.
    pub(crate) fn push_lines(&self, out: &mut Vec<u8>) -> Result<(), AllocError>
        ensures { OnOk result (out.new.items ≡ out.old.items ++ talk_lines self.now) }
    {
        for (talk, tally) in self.map.iter() {
            push_talk(out, *talk, *tally)?;
        }
        Ok(())
    }
}

/// Appends source, destination, destination port and source port of a talk.
fn put_ends(line: &mut Line, talk: u32)
    requires { length line.old.items + 84 ≤ ROOM }
    ensures items { line.new.items ≡ line.old.items ++ words (talk_words talk) }
    ensures fits { length line.new.items ≤ length line.old.items + 84 }
{
    put_count(line, u64::from(talk >> 17));
    put_count(line, u64::from((talk >> 12) % 32));
    put_count(line, u64::from((talk >> 6) % 64));
    put_count(line, u64::from(talk % 64));
}

/// Appends what went in a talk.
fn put_tally(line: &mut Line, tally: Tally)
    requires { length line.old.items + 56 ≤ ROOM }
    ensures items { line.new.items ≡ line.old.items ++ words (tally_words tally) }
    ensures fits { length line.new.items ≤ length line.old.items + 56 }
{
    put_counted(line, "packets", tally.packets);
    put_counted(line, "bytes", tally.bytes);
}

/// Appends the line of a talk.
fn push_talk(out: &mut Vec<u8>, talk: u32, tally: Tally) -> Result<(), AllocError>
    ensures { OnOk result (out.new.items ≡ out.old.items ++ talk_line (talk, tally)) }
{
    let mut line = Line::new();
    begin_line(&mut line, "talk");
    put_ends(&mut line, talk);
    put_tally(&mut line, tally);
    end_line(&mut line);
    push_line(out, &line)
}
