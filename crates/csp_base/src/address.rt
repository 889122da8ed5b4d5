//! Addresses of nodes: 5 bits of the header.

ghost use Rattle.std.specs.Prelude.{◌≡◌, ℕ, ◌<◌, IsSome, IfSome, ◌↔◌};

use std::marker::Model;

/// The address of broadcast, which is every node's.
pub const BROADCAST: u8 = 31;

/// The address of a node, 0 to 31. 31 is broadcast. Contracts see it as that number.
#[derive(Clone, Copy, PartialEq, Eq, PartialOrd, Ord, Debug)]
pub struct Addr(u8);

impl Model for Addr {
    ghost Value = { ℕ };

    ghost view = { λ a. a.0 };

    ghost invariant = { λ a. a.0 < 32 };

    ghost inverse = { λ n. record { 0 = n } };
}

impl Addr {
    /// The address with this number, where it is one of 5 bits.
    pub fn new(number: u8) -> Option<Addr>
        ensures valid { IsSome result ↔ (number < 32) }
        ensures value { IfSome result (λ a. a ≡ number) }
    {
        if number < 32 {
            Some(Addr(number))
        } else {
            None
        }
    }

    /// Its number, 0 to 31.
    pub fn get(self) -> u8
        ensures value { result ≡ self }
        ensures range { self < 32 }
    {
        self.0
    }
}
