//! Ports of a node: 6 bits of the header.

ghost use Rattle.std.specs.Prelude.{◌≡◌, ℕ, ◌<◌, IsSome, IfSome, ◌↔◌};

use std::marker::Model;

/// The first of the ports that a connection has on its own node.
pub const FIRST_OWN_PORT: u8 = 48;

/// A port of a node, 0 to 63. Contracts see it as that number.
#[derive(Clone, Copy, PartialEq, Eq, Debug)]
pub struct Port(u8);

impl Model for Port {
    ghost Value = { ℕ };

    ghost view = { λ p. p.0 };

    ghost invariant = { λ p. p.0 < 64 };

    ghost inverse = { λ n. record { 0 = n } };
}

impl Port {
    /// The port with this number, where it is one of 6 bits.
    pub fn new(number: u8) -> Option<Port>
        ensures valid { IsSome result ↔ (number < 64) }
        ensures value { IfSome result (λ p. p ≡ number) }
    {
        if number < 64 {
            Some(Port(number))
        } else {
            None
        }
    }

    /// Its number, 0 to 63.
    pub fn get(self) -> u8
        ensures value { result ≡ self }
        ensures range { self < 64 }
    {
        self.0
    }
}
