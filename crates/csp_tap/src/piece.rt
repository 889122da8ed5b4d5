//! The piece of a stream that is under way, and what it is found to be, where it lies.

ghost use Rattle.std.specs.Prelude.{◌≡◌, []};
ghost use Rattle.std.specs.Option.{option_map};
ghost use Rattle.csp_base.specs.declared.limits.TheConstants.{MAX_PAYLOAD};
ghost use Rattle.csp_crc.specs.Crc.{crc_of};
ghost use Rattle.csp_kiss.specs.Frame.{covered};
ghost use Rattle.csp_kiss.specs.Reading.{going, kept_bytes, told, unread};
ghost use Rattle.csp_kiss.specs.Stream.{judged};
ghost use Rattle.csp_kiss.specs.declared.stage.Stage as kiss;
ghost use Rattle.csp_tap.specs.Pieces.{event_of, gone_on, gone_through};

use crate::words::put;
use arrayvec::ArrayVec;
use csp_base::MAX_PAYLOAD;
use csp_crc::{crc32c, crc32c_joined};
use csp_kiss::{FEND, FESC, TFEND, TFESC};
use std::marker::Model;

/// Room for one byte more than the longest packet has, so that a longer piece shows.
const ROOM: usize = MAX_PAYLOAD + 9;

/// Where a stream is.
#[derive(Clone, Copy)]
pub(crate) enum Stage {
    /// No FEND has come.
    Outside,
    /// A FEND came last.
    Start,
    /// In a piece.
    Plain,
    /// In a piece, after a FESC.
    Escape,
}

/// What a piece is found to be.
#[derive(Clone, Copy)]
pub(crate) enum Finding<'a> {
    /// A packet, whose CRC stands.
    Packet {
        /// The header word.
        header: u32,
        /// The payload, where it lies in the piece.
        payload: &'a [u8],
    },
    /// More bytes than a header, the greatest payload and a CRC.
    TooLong,
    /// Fewer bytes than a header and a CRC.
    Short,
    /// The last four bytes are not the CRC of what it covers.
    BadCrc {
        /// What the last four bytes say.
        found: u32,
        /// The CRC that belongs there.
        wanted: u32,
    },
}

/// The piece under way with its escapes undone, as far as there is room. It is what csp_kiss's reader keeps, and is judged
/// without a copy of its payload, so that a short packet costs no more than its own bytes.
#[derive(Drop)]
pub(crate) struct Piece {
    /// Whether the CRC of a frame covers the header.
    cover: bool,
    stage: Stage,
    plain: ArrayVec<u8, ROOM>,
}

impl Model for Piece {
    ghost use Rattle.csp_base.specs.declared.limits.TheConstants.{MAX_PAYLOAD};
    ghost use Rattle.csp_kiss.specs.Reading.{Reading};
    ghost use Rattle.csp_tap.specs.Pieces.{stage_of};

    ghost Value = { Reading };

    ghost view = { λ p. record { cover = p.cover; mtu = MAX_PAYLOAD; stage = stage_of p.stage; plain = p.plain.items } };

    ghost use Rattle.std.specs.Prelude.{◌≤◌, length};
    ghost use Rattle.csp_kiss.specs.Reading.{room};

    ghost invariant = { λ p. length p.plain.items ≤ room MAX_PAYLOAD };
}

impl Piece {
    /// The stream is still to come.
    pub(crate) fn new(cover: bool) -> Piece
        ensures { result ≡ unread cover MAX_PAYLOAD }
    {
        Piece {
            cover,
            stage: Stage::Outside,
            plain: ArrayVec::new(),
        }
    }

    /// Takes a byte that ends no piece.
    pub(crate) fn go_on(&mut self, byte: u8)
        ensures { self.new ≡ gone_on self.old byte }
    {
        match self.stage {
            Stage::Outside => {}
            Stage::Start => self.stage = Stage::Plain,
            Stage::Plain if byte == FESC => self.stage = Stage::Escape,
            Stage::Plain => self.keep(&[byte]),
            Stage::Escape => {
                self.stage = Stage::Plain;
                match byte {
                    TFEND => self.keep(&[FEND]),
                    TFESC => self.keep(&[FESC]),
                    _ => {}
                }
            }
        }
    }

    /// Takes bytes that end no piece. A whole piece without escapes is kept at once.
    pub(crate) fn go_through(&mut self, bytes: &[u8])
        ensures { self.new ≡ gone_through self.old bytes.now }
    {
        match (self.stage, bytes) {
            (Stage::Start, [_, plain @ ..]) if !plain.contains(&FESC) => {
                self.stage = Stage::Plain;
                self.keep(plain);
            }
            _ => self.go_through_each(bytes),
        }
    }

    /// The same, one by one.
    fn go_through_each(&mut self, bytes: &[u8])
        ensures { self.new ≡ gone_through self.old bytes.now }
    {
        for byte in bytes {
            self.go_on(*byte);
        }
    }

    /// Keeps bytes, as far as there is room.
    fn keep(&mut self, bytes: &[u8])
        ensures { self.new ≡ going self.old self.old.stage (kept_bytes MAX_PAYLOAD self.old.plain bytes.now) }
    {
        let fit = (ROOM - self.plain.len()).min(bytes.len());
        put(&mut self.plain, &bytes[..fit]);
    }

    /// After the FEND that ends a piece.
    pub(crate) fn start(&mut self)
        ensures { self.new ≡ going self.old kiss.Stage.Start [] }
    {
        self.stage = Stage::Start;
        self.plain.clear();
    }

    /// What it is found to be, where it has a byte.
    pub(crate) fn finding(&self) -> Option<Finding<'_>>
        ensures { option_map event_of result ≡ told self.now self.now.stage }
    {
        match self.stage {
            Stage::Outside | Stage::Start => None,
            Stage::Plain | Stage::Escape => Some(judge(self.cover, self.plain.as_slice())),
        }
    }
}

/// The CRC-32C in the frame of a packet, which covers the header or not.
fn checksum(cover: bool, header: u32, payload: &[u8]) -> u32
    ensures { result ≡ crc_of (covered cover header payload.now) }
{
    if cover {
        crc32c_joined(&header.to_be_bytes(), payload)
    } else {
        crc32c(payload)
    }
}

/// What the bytes of a piece are.
fn judge(cover: bool, plain: &[u8]) -> Finding<'_>
    ensures { event_of result ≡ judged cover MAX_PAYLOAD plain.now }
{
    if plain.len() > MAX_PAYLOAD + 8 {
        return Finding::TooLong;
    }
    let Some((front, last)) = plain.split_last_chunk::<4>() else {
        return Finding::Short;
    };
    let Some((first, payload)) = front.split_first_chunk::<4>() else {
        return Finding::Short;
    };
    let header = u32::from_be_bytes(*first);
    let found = u32::from_be_bytes(*last);
    let wanted = checksum(cover, header, payload);
    if found == wanted {
        Finding::Packet { header, payload }
    } else {
        Finding::BadCrc { found, wanted }
    }
}
