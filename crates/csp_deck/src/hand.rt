//! A place for one buffer.

ghost use Rattle.std.specs.Prelude.{◌≡◌, None, Some, nat_lt, IfSome};
ghost use Rattle.std.specs.Option.{option_map, is_none};
ghost use Rattle.csp_deck.specs.Keeping.{with_content, number_in};
ghost use Rattle.csp_deck.specs.Step.{times};

use csp_arena::RegionToken;
use csp_buffer::Buffer;
use std::marker::Model;

/// A place for one buffer of a region. It is ended when it is empty.
pub struct Hand {
    token: RegionToken,
    buffer: Option<Buffer>,
}

impl Model for Hand {
    ghost use Rattle.std.specs.Prelude.{◌≡◌, IfSome};
    ghost use Rattle.csp_deck.specs.Keeping.{PlainHand};

    ghost Value = { PlainHand };

    ghost use Rattle.csp_deck.specs.Kept.{plain_hand};

    ghost view = { plain_hand };

    ghost invariant = { λ h. IfSome h.buffer (λ b. b.region ≡ h.token.name) };
}

impl Hand {
    /// An empty place for buffers of this region.
    pub fn empty(region: RegionToken) -> Hand
        ensures { result ≡ record { region = region.name; content = None } }
    {
        Hand {
            token: region,
            buffer: None,
        }
    }

    /// Whether there is no buffer.
    pub fn is_empty(&self) -> bool
        ensures { result ≡ is_none self.now.content }
    {
        self.buffer.is_none()
    }

    /// The buffer, if there is one.
    pub fn buffer(&self) -> Option<&Buffer>
        ensures { option_map (λ b. b.now.picture) result ≡ self.now.content }
    {
        self.buffer.as_ref()
    }

    /// Takes the buffer out.
    pub fn take(&mut self) -> Option<Buffer>
        ensures content { option_map (λ b. b.picture) result ≡ self.old.content }
        ensures of_it { IfSome result (λ b. b.region ≡ self.old.region) }
        ensures empty { self.new ≡ with_content self.old None }
    {
        self.buffer.take()
    }

    /// Puts a buffer into the empty place.
    pub fn put(&mut self, buffer: Buffer)
        requires empty { self.old.content ≡ None }
        requires of_it { buffer.region ≡ self.old.region }
        ensures { self.new ≡ with_content self.old (Some buffer.picture) }
    {
        match self.buffer.replace(buffer) {
            None => {}
            Some(_) => unreachable!(),
        }
    }

    /// Whether the buffer of this number is there.
    pub fn holds(&self, number: u16) -> bool
        ensures { result ≡ nat_lt 0 (times number (number_in self.now.content)) }
    {
        match &self.buffer {
            Some(buffer) => buffer.number() == number,
            None => false,
        }
    }

    /// Ends an empty place.
    pub fn end(self)
        requires { self.content ≡ None }
    {
        let Hand { token: _, buffer } = self;
        match buffer {
            None => {}
            Some(_) => unreachable!(),
        }
    }
}
