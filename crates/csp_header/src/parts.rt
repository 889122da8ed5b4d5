//! The parts of a word.

ghost use Rattle.std.specs.Prelude.{◌≡◌, ◌/◌, ◌%◌, ◌^◌, ◌<◌};
ghost use Rattle.csp_base.specs.Priority.{prio_of, prio_number};

use csp_base::{Addr, Port, Prio};

/// The priority in the two highest bits.
pub fn priority_at(word: u32) -> Prio
    ensures value { result ≡ prio_of (word / 2 ^ 30) }
    ensures number { prio_number result ≡ word / 2 ^ 30 }
{
    Prio::new((word >> 30) as u8).unwrap()
}

/// The address in the five lowest bits.
pub fn address_at(bits: u32) -> Addr
    ensures { result ≡ bits % 32 }
{
    Addr::new((bits & 31) as u8).unwrap()
}

/// The port in the six lowest bits.
pub fn port_at(bits: u32) -> Port
    ensures { result ≡ bits % 64 }
{
    Port::new((bits & 63) as u8).unwrap()
}
