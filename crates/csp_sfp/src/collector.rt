//! Pieces gathered to blobs, in fixed room.

ghost use Rattle.std.specs.Prelude.{◌≡◌, ◌==◌, ◌≤◌, ◌+◌, ◌++◌, ℕ, IfOk, MatchResult, Ok, Err, length};
ghost use Rattle.csp_sfp.specs.Gathering.{after, answer, gathered, grown, judged, nothing, whole_or_part};
ghost use Rattle.csp_sfp.specs.Trailer.{total_of};

use crate::SfpError;
use crate::trailer::{MAX_BLOB, Piece};
use std::alloc::{AllocError, Global};
use std::marker::Model;

/// What a collector answers to a piece that it gathers.
#[derive(Clone, Copy)]
pub enum SfpAnswer {
    /// More of the blob is to come.
    Part,
    /// The blob is whole with it.
    Whole,
}

/// Gathers the pieces of one blob after the other, in room for `MAX_BLOB` bytes.
#[derive(Drop)]
pub struct Collector {
    /// How many bytes the blob under way has, if one is.
    total: Option<u32>,
    /// Its bytes so far, or else those of the blob that was whole last.
    bytes: Vec<u8>,
}

impl Model for Collector {
    ghost use Rattle.std.specs.Prelude.{◌≤◌, length};
    ghost use Rattle.std.specs.Vec.{vec_capacity};
    ghost use Rattle.csp_sfp.specs.Gathering.{Gathering};
    ghost use Rattle.csp_sfp.specs.declared.trailer.TheConstants.{MAX_BLOB};

    ghost Value = { Gathering };

    ghost view = { λ c. record { total = c.total; bytes = c.bytes.items } };

    ghost invariant = { λ c. (MAX_BLOB ≤ vec_capacity c.bytes) × (length c.bytes.items ≤ MAX_BLOB) };
}

impl Collector {
    /// A collector that has gathered nothing.
    pub fn open(alloc: Global) -> Result<Collector, AllocError>
        ensures { IfOk result (λ collector. collector ≡ nothing) }
    {
        Ok(Collector {
            total: None,
            bytes: Vec::with_capacity(alloc, MAX_BLOB)?,
        })
    }

    /// Takes the next piece. A refused one is dropped, and the blob under way with it.
    pub fn piece(&mut self, payload: &[u8]) -> Result<SfpAnswer, SfpError>
        ensures answer { result ≡ answer self.old payload.now }
        ensures state { self.new ≡ after self.old payload.now }
    {
        match self.judge(payload) {
            Ok(piece) => Ok(self.gather(piece)),
            Err(error) => {
                self.reset();
                Err(error)
            }
        }
    }

    /// The blob that became whole by the last piece, until the next call of `piece` or `reset`. Else what was gathered
    /// of the one under way.
    pub fn blob(&self) -> &[u8]
        ensures bytes { result.now ≡ self.now.bytes }
        ensures fits { length self.now.bytes ≤ MAX_BLOB }
    {
        self.bytes.as_slice()
    }

    /// Forgets what was gathered.
    pub fn reset(&mut self)
        ensures { self.new ≡ nothing }
    {
        self.total = None;
        self.bytes.clear();
    }

    /// How many bytes of the blob under way were gathered.
    fn gathered(&self) -> u32
        ensures { result ≡ length (gathered self.now) }
    {
        match self.total {
            Some(_) => self.bytes.len() as u32,
            None => 0,
        }
    }

    /// Reads a payload as a piece, and judges whether it is the next one.
    fn judge<'a>(&self, payload: &'a [u8]) -> Result<Piece<'a>, SfpError>
        ensures next { MatchResult result
            (λ piece. judged self.now payload.now ≡ Ok piece.data.now)
            (λ error. judged self.now payload.now ≡ Err error) }
        ensures total { IfOk result (λ piece. piece.total ≡ total_of payload.now) }
        ensures fits { IfOk result (λ piece. length (gathered self.now) + length piece.data.now ≤ piece.total) }
        ensures bound { IfOk result (λ piece. piece.total ≤ MAX_BLOB) }
    {
        let piece = Piece::read(payload).ok_or(SfpError::Short)?;
        let total = piece.total;
        let expected = self.gathered();
        if piece.data.is_empty() {
            return Err(SfpError::NoData);
        }
        if total == 0 || total as usize > MAX_BLOB {
            return Err(SfpError::BadTotal { total });
        }
        match self.total {
            Some(kept) if kept != total => {
                return Err(SfpError::WrongTotal { kept, found: total });
            }
            _ => (),
        }
        if piece.offset != expected {
            return Err(SfpError::WrongOffset {
                expected,
                found: piece.offset,
            });
        }
        if expected as usize + piece.data.len() > total as usize {
            return Err(SfpError::TooMuch { total });
        }
        Ok(piece)
    }

    /// Gathers the data of the next piece.
    fn gather(&mut self, piece: Piece) -> SfpAnswer
        requires fits { length (gathered self.old) + length piece.data.now ≤ piece.total }
        requires bound { piece.total ≤ MAX_BLOB }
        ensures answer { result ≡ whole_or_part (length (gathered self.old ++ piece.entry.data.now) == piece.entry.total) }
        ensures state { self.new ≡ grown piece.entry.total (gathered self.old ++ piece.entry.data.now) }
    {
        if self.total.is_none() {
            self.bytes.clear();
        }
        self.bytes.extend_from_slice(piece.data).unwrap();
        if self.bytes.len() == piece.total as usize {
            self.total = None;
            SfpAnswer::Whole
        } else {
            self.total = Some(piece.total);
            SfpAnswer::Part
        }
    }
}
