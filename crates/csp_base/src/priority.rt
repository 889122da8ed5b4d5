//! Priorities of packets: 2 bits of the header.

/// The priority of a packet, most urgent first.
#[derive(Clone, Copy, Debug)]
pub enum Prio {
    /// Number 0.
    Critical,
    /// Number 1.
    High,
    /// Number 2.
    Normal,
    /// Number 3.
    Low,
}

impl Prio {
    ghost use Rattle.std.specs.Prelude.{◌≡◌, ◌<◌, IsSome, IfSome, ◌↔◌};
    ghost use Rattle.csp_base.specs.Priority.{prio_number, prio_of};

    /// The priority with this number, where it is 0 to 3.
    pub fn new(number: u8) -> Option<Prio>
        ensures valid { IsSome result ↔ (number < 4) }
        ensures value { IfSome result (λ p. prio_number p ≡ number) }
        ensures named { IfSome result (λ p. p ≡ prio_of number) }
    {
        match number {
            0 => Some(Prio::Critical),
            1 => Some(Prio::High),
            2 => Some(Prio::Normal),
            3 => Some(Prio::Low),
            _ => None,
        }
    }

    /// Its number, 0 for the most urgent to 3.
    pub fn number(self) -> u8
        ensures value { result ≡ prio_number self }
        ensures range { prio_number self < 4 }
    {
        match self {
            Prio::Critical => 0,
            Prio::High => 1,
            Prio::Normal => 2,
            Prio::Low => 3,
        }
    }
}
