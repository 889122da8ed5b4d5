//! A stream read byte by byte, or many bytes at once, and told in lines.

ghost use Rattle.std.specs.Prelude.{◌≡◌, ◌+◌, ◌^◌, ◌≤◌, ℕ, Bool, List, [], ◌∷◌, ◌++◌, None, OnOk, OnErr, IfOk, IfSome};
ghost use Rattle.csp_base.specs.declared.limits.TheConstants.{MAX_PAYLOAD};
ghost use Rattle.csp_kiss.specs.Reading.{Reading, told};
ghost use Rattle.csp_kiss.specs.Stream.{events};
ghost use Rattle.csp_kiss.specs.declared.TheConstants.{FEND};
ghost use Rattle.csp_tap.specs.Fed.{HasFed, telling};
ghost use Rattle.csp_tap.specs.Pieces.{HasNoEnd, event_of, tap_of, told_with};
ghost use Rattle.csp_tap.specs.Talks.{talk_lines};
ghost use Rattle.csp_tap.specs.Text.{first_line, last_line, tap_text};

use crate::packets::push_finding;
use crate::piece::{Finding, Piece};
use crate::talks::Talks;
use crate::words::{Line, begin_line, end_line, push_line, put_count, put_word};
use csp_kiss::FEND;
use std::alloc::{AllocError, Global};
use std::marker::Model;

/// What is told of a stream so far. Its memory is that of the text, and a little for each talk.
#[derive(Drop)]
struct Tale {
    lines: Vec<u8>,
    /// How many events the lines tell of.
    count: u64,
    talks: Talks,
}

impl Tale {
    /// Tells what a piece is found to be.
    fn tell(&mut self, finding: Finding<'_>) -> Result<(), AllocError>
        ensures { OnOk result ((reading : Reading) → tap_of reading self.new ≡ telling (event_of finding.entry) (tap_of reading self.old)) }
    {
        let count = next_number(self.count)?;
        push_finding(&mut self.lines, count, finding)?;
        self.count = count;
        match finding {
            Finding::Packet { header, payload } => self.talks.add(header, payload.len() as u64),
            Finding::TooLong | Finding::Short | Finding::BadCrc { .. } => Ok(()),
        }
    }

    /// The whole text.
    fn finish(self) -> Result<Vec<u8>, AllocError>
        ensures { IfOk result (λ bytes. bytes.items ≡ (self.lines.items ++ talk_lines self.talks) ++ last_line self.count) }
    {
        let mut lines = self.lines;
        self.talks.push_lines(&mut lines)?;
        push_last(&mut lines, self.count)?;
        Ok(lines)
    }
}

/// The text of a stream so far, and what is kept of the stream.
#[derive(Drop)]
pub struct Tap {
    piece: Piece,
    tale: Tale,
}

impl Model for Tap {
    ghost use Rattle.csp_tap.specs.Fed.{PlainTap};

    ghost Value = { PlainTap };

    ghost view = { λ t. record { reading = t.piece; lines = t.tale.lines.items; count = t.tale.count; talks = t.tale.talks } };
}

impl Tap {
    /// A tap of a stream that is still to come, of frames whose CRC covers the header or not. It takes every payload that a
    /// packet may have.
    pub fn open(alloc: Global, cover: bool) -> Result<Tap, AllocError>
        ensures { IfOk result (λ tap. HasFed cover [] tap) }
    {
        let mut lines = Vec::new(alloc);
        push_first(&mut lines)?;
        Ok(Tap {
            piece: Piece::new(cover),
            tale: Tale {
                lines,
                count: 0,
                talks: Talks::new(alloc),
            },
        })
    }

    /// Takes the next byte of the stream. After a refusal nothing but `end` may be called.
    pub fn byte(&mut self, byte: u8) -> Result<(), AllocError>
        // Whatever was fed before, this byte is what it was fed besides.
        ensures { OnOk result ((cover : Bool) (stream : List ℕ) → HasFed cover stream self.old → HasFed cover (stream ++ byte ∷ []) self.new) }
    {
        if byte == FEND {
            return self.end_piece();
        }
        self.piece.go_on(byte);
        Ok(())
    }

    /// Takes the next bytes of the stream, as `byte` takes each of them.
    pub fn bytes(&mut self, bytes: &[u8]) -> Result<(), AllocError>
        ensures { OnOk result ((cover : Bool) (stream : List ℕ) → HasFed cover stream self.old → HasFed cover (stream ++ bytes.now) self.new) }
    {
        let mut rest = bytes;
        while let Some((part, left)) = cut(rest) {
            self.go_through(part);
            self.end_piece()?;
            rest = left;
        }
        self.go_through(rest);
        Ok(())
    }

    /// Takes bytes that end no piece.
    fn go_through(&mut self, bytes: &[u8])
        requires { HasNoEnd bytes.now }
        ensures { (cover : Bool) (stream : List ℕ) → HasFed cover stream self.old → HasFed cover (stream ++ bytes.now) self.new }
    {
        self.piece.go_through(bytes);
    }

    /// Takes the byte that ends a piece.
    fn end_piece(&mut self) -> Result<(), AllocError>
        ensures { OnOk result ((cover : Bool) (stream : List ℕ) → HasFed cover stream self.old → HasFed cover (stream ++ FEND ∷ []) self.new) }
    {
        self.tell_piece()?;
        self.piece.start();
        Ok(())
    }

    /// Tells of the piece under way, where it has a byte.
    fn tell_piece(&mut self) -> Result<(), AllocError>
        ensures { OnOk result (self.new ≡ told_with (told self.old.reading self.old.reading.stage) self.old) }
    {
        match self.piece.finding() {
            Some(finding) => self.tale.tell(finding),
            None => Ok(()),
        }
    }

    /// The text of the whole stream.
    pub fn finish(self) -> Result<Vec<u8>, AllocError>
        ensures { IfOk result (λ bytes. (cover : Bool) (stream : List ℕ) → HasFed cover stream self → bytes.items ≡ tap_text (events cover MAX_PAYLOAD stream)) }
    {
        self.tale.finish()
    }

    /// Gives all up.
    pub fn end(self) {}
}

/// The number after this one. Memory is wanting exactly where it has more than 64 bits.
fn next_number(number: u64) -> Result<u64, AllocError>
    ensures ok { IfOk result (λ next. next ≡ number + 1) }
    ensures err { OnErr result (2 ^ 64 ≤ number + 1) }
{
    number.checked_add(1).ok_or(AllocError)
}

/// The bytes before the first FEND and those after it, where there is one.
fn cut(bytes: &[u8]) -> Option<(&[u8], &[u8])>
    ensures whole { IfSome result (λ parts. bytes.now ≡ parts.0.now ++ FEND ∷ parts.1.now) }
    ensures first { IfSome result (λ parts. HasNoEnd parts.0.now) }
    ensures none { result ≡ None → HasNoEnd bytes.now }
{
    let at = bytes.iter().position(|byte| *byte == FEND)?;
    Some((&bytes[..at], &bytes[at + 1..]))
}

/// Appends the first line.
fn push_first(out: &mut Vec<u8>) -> Result<(), AllocError>
    ensures { OnOk result (out.new.items ≡ out.old.items ++ first_line) }
{
    let mut line = Line::new();
    begin_line(&mut line, "csp-tap");
    put_word(&mut line, "1");
    end_line(&mut line);
    push_line(out, &line)
}

/// Appends the last line.
fn push_last(out: &mut Vec<u8>, count: u64) -> Result<(), AllocError>
    ensures { OnOk result (out.new.items ≡ out.old.items ++ last_line count) }
{
    let mut line = Line::new();
    begin_line(&mut line, "end");
    put_count(&mut line, count);
    end_line(&mut line);
    push_line(out, &line)
}
