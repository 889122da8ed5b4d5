//! Reads a stream byte by byte, in fixed room.

ghost use Rattle.std.specs.Prelude.{◌≡◌, ◌≢◌, ℕ, List, [], ◌∷◌, ◌++◌, option_to_list, ◌≤◌, length};
ghost use Rattle.csp_kiss.specs.Reading.{Reading, HasRead, after, answer, answers, continued, going, told, kept_bytes, unread};
ghost use Rattle.csp_kiss.specs.Stream.{events, judged};

use crate::checksum::checksum;
use crate::stage::{ROOM, Stage};
use crate::{FEND, FESC, KissEvent, TFEND, TFESC};
use arrayvec::ArrayVec;
use csp_base::MAX_PAYLOAD;
use std::marker::Model;

/// A reader of one stream. It keeps the piece under way with its escapes undone, as far as there is room.
#[derive(Drop)]
pub struct KissReader {
    /// Whether the CRC of a frame covers the header.
    cover: bool,
    /// How many payload bytes a packet has at most.
    mtu: u16,
    stage: Stage,
    plain: ArrayVec<u8, ROOM>,
}

impl Model for KissReader {
    ghost use Rattle.csp_kiss.specs.Reading.{Reading};

    ghost Value = { Reading };

    ghost view = { λ r. record { cover = r.cover; mtu = r.mtu; stage = r.stage; plain = r.plain.items } };

    ghost use Rattle.csp_kiss.specs.Room.{IsInRoom};

    ghost invariant = { λ r. IsInRoom r.mtu r.plain.items };
}

impl KissReader {
    /// A reader of a stream that is still to come, of frames whose CRC covers the header or not. A packet has at most
    /// `mtu` payload bytes.
    pub fn new(cover: bool, mtu: u16) -> Self
        requires { mtu ≤ MAX_PAYLOAD }
        ensures state { result ≡ unread cover mtu }
        ensures nothing { HasRead [] result }
        // Fed any stream byte by byte, it answers the events of that stream.
        ensures whole { (stream : List ℕ) → answers result stream ≡ events cover mtu stream }
    {
        KissReader {
            cover,
            mtu,
            stage: Stage::Outside,
            plain: ArrayVec::new(),
        }
    }

    /// Takes the next byte of the stream. It answers at a FEND alone, where a piece with a byte ends.
    pub fn byte(&mut self, byte: u8) -> Option<KissEvent>
        ensures state { self.new ≡ after self.old byte }
        ensures answer { result ≡ answer self.old byte }
        // Whatever was fed before, this byte is what the reader has read besides.
        ensures read { (stream : List ℕ) → HasRead stream self.old → HasRead (stream ++ byte ∷ []) self.new }
        // And what it answers is what this byte adds to the events of the whole stream.
        ensures event { (stream : List ℕ) → HasRead stream self.old →
            events self.old.cover self.old.mtu (stream ++ byte ∷ []) ≡ events self.old.cover self.old.mtu stream ++ option_to_list result }
    {
        self.step(byte)
    }

    fn step(&mut self, byte: u8) -> Option<KissEvent>
        ensures state { self.new ≡ after self.old byte }
        ensures answer { result ≡ answer self.old byte }
    {
        if byte == FEND {
            return self.end_piece();
        }
        self.go_on(byte);
        None
    }

    /// Takes a byte that ends no piece.
    pub fn go_on(&mut self, byte: u8)
        requires { byte ≢ FEND }
        ensures { self.new ≡ continued self.old self.old.stage byte }
    {
        match self.stage {
            Stage::Outside => {}
            Stage::Start => self.stage = Stage::Plain,
            Stage::Plain if byte == FESC => self.stage = Stage::Escape,
            Stage::Plain => self.keep(byte),
            Stage::Escape => {
                self.stage = Stage::Plain;
                match byte {
                    TFEND => self.keep(FEND),
                    TFESC => self.keep(FESC),
                    _ => {}
                }
            }
        }
    }

    /// Takes the FEND that ends a piece.
    pub(crate) fn end_piece(&mut self) -> Option<KissEvent>
        ensures state { self.new ≡ going self.old Stage.Start [] }
        ensures told { result ≡ told self.old self.old.stage }
    {
        let event = match self.stage {
            Stage::Outside | Stage::Start => None,
            Stage::Plain | Stage::Escape => {
                Some(judge(self.cover, self.mtu, self.plain.as_slice()))
            },
        };
        self.stage = Stage::Start;
        self.plain.clear();
        event
    }

    #[tactic(auto, using(crate::proofs::Judging::keeping))]
    fn keep(&mut self, byte: u8)
        ensures { self.new ≡ going self.old self.old.stage (kept_bytes self.old.mtu self.old.plain (byte ∷ [])) }
    {
        if self.plain.len() < usize::from(self.mtu) + 9 {
            self.plain.push(byte);
        }
    }
}

// What the bytes of a piece are.
fn judge(cover: bool, mtu: u16, plain: &[u8]) -> KissEvent
    requires { mtu ≤ MAX_PAYLOAD }
    ensures { result ≡ judged cover mtu plain.now }
{
    if plain.len() > usize::from(mtu) + 8 {
        return KissEvent::TooLong;
    }
    let Some((front, last)) = plain.split_last_chunk::<4>() else {
        return KissEvent::Short;
    };
    let Some((first, payload)) = front.split_first_chunk::<4>() else {
        return KissEvent::Short;
    };
    let header = u32::from_be_bytes(*first);
    let found = u32::from_be_bytes(*last);
    let wanted = checksum(cover, header, payload);
    if found == wanted {
        packet(header, payload)
    } else {
        KissEvent::BadCrc { found, wanted }
    }
}

// The packet, whose payload is copied.
fn packet(header: u32, bytes: &[u8]) -> KissEvent
    requires { length bytes.now ≤ MAX_PAYLOAD }
    ensures { result ≡ KissEvent.Packet header (record { items = bytes.now }) }
{
    let mut payload = ArrayVec::new();
    for &byte in bytes {
        payload.push(byte);
    }
    KissEvent::Packet { header, payload }
}
