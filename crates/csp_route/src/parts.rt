//! A text cut into parts, each with the place at which it stands.

ghost use Rattle.std.specs.Prelude.{◌≡◌, ◌==◌, ◌<◌, ◌∷◌, [], MatchOption, IfSome, slice_get, drop, length};
ghost use Rattle.std.specs.List.{position};
ghost use Rattle.csp_route.specs.Parts.{parts_of, filled, end_of};

use std::marker::Model;

/// A part of a text, and the place of its first byte.
#[derive(Drop)]
pub(crate) struct Part<'a> {
    at: usize,
    bytes: &'a [u8],
}

impl<'a> Model for Part<'a> {
    ghost use Rattle.std.specs.Prelude.{ℕ, ◌+◌, ◌^◌, ◌<◌, length};
    ghost use Rattle.csp_route.specs.Parts.{Part as Shown};

    ghost Value = { Shown };

    ghost view = { λ p. record { at = p.at; bytes = p.bytes.now } };

    ghost invariant = { λ p. p.at + length p.bytes.now < 2 ^ 63 };
}

impl<'a> Part<'a> {
    /// A whole text.
    pub(crate) fn whole(text: &'a [u8]) -> Part<'a>
        ensures { result ≡ record { at = 0; bytes = text.now } }
    {
        Part { at: 0, bytes: text }
    }

    pub(crate) fn at(&self) -> usize
        ensures { result ≡ self.now.at }
    {
        self.at
    }

    pub(crate) fn bytes(&self) -> &'a [u8]
        ensures { result.now ≡ self.now.bytes }
    {
        self.bytes
    }

    /// The place at which it ends.
    pub(crate) fn end(&self) -> usize
        ensures { result ≡ end_of self.now }
    {
        self.at + self.bytes.len()
    }

    /// Its parts, as a separator cuts it.
    pub(crate) fn cut(&self, separator: u8) -> Parts<'a>
        ensures { result ≡ parts_of separator self.now.at self.now.bytes }
    {
        Parts {
            separator,
            at: self.at,
            rest: Some(self.bytes),
        }
    }
}

/// The place of the first byte that is the separator.
fn separator_place(bytes: &[u8], separator: u8) -> Option<usize>
    ensures value { result ≡ position (λ byte. byte == separator) bytes.now }
    ensures inside { IfSome result (λ place. place < length bytes.now) }
{
    bytes.iter().position(|byte| *byte == separator)
}

/// The parts of a text that were not handed out yet.
#[derive(Drop)]
pub(crate) struct Parts<'a> {
    separator: u8,
    at: usize,
    rest: Option<&'a [u8]>,
}

impl<'a> Model for Parts<'a> {
    ghost use Rattle.std.specs.Prelude.{List};
    ghost use Rattle.csp_route.specs.Parts.{Part as Shown};
    ghost use Rattle.csp_route.specs.Reader.{parts_left, FitsMemory};

    ghost Value = { List Shown };

    ghost view = { λ p. parts_left p.separator p.at p.rest };

    ghost invariant = { λ p. FitsMemory p.at p.rest };
}

impl<'a> Parts<'a> {
    /// The next part.
    pub(crate) fn next(&mut self) -> Option<Part<'a>>
        ensures { MatchOption result ((self.old ≡ []) × (self.new ≡ [])) (λ part. self.old ≡ part ∷ self.new) }
    {
        let bytes = self.rest?;
        match separator_place(bytes, self.separator) {
            Some(end) => {
                let part = Part {
                    at: self.at,
                    bytes: &bytes[..end],
                };
                self.at += end + 1;
                self.rest = Some(&bytes[end + 1..]);
                Some(part)
            }
            None => {
                self.rest = None;
                Some(Part { at: self.at, bytes })
            }
        }
    }

    /// The next part that has a byte.
    pub(crate) fn word(&mut self) -> Option<Part<'a>>
        ensures word { result ≡ slice_get (filled self.old) 0 }
        ensures rest { filled self.new ≡ drop 1 (filled self.old) }
    {
        while let Some(part) = self.next() {
            if !part.bytes().is_empty() {
                return Some(part);
            }
        }
        None
    }
}
