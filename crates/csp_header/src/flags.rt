//! The eight flags of a header.

ghost use Rattle.std.specs.Prelude.{⊤, [], ◌∷◌, codes};

use bitflags::{Flag, Flags, bitflag_items};

/// The flags of a header, 8 bits. The three highest have no name: they are carried, and nothing acts
/// on them.
#[derive(Clone, Copy)]
pub struct FlagSet(pub u8);

bitflag_items! {
    impl FlagSet: u8 {
        const CRC32 = 0x01;
        const RDP = 0x02;
        const XTEA = 0x04;
        const HMAC = 0x08;
        const FRAG = 0x10;
    }
}

impl Flags for FlagSet {
    type Bits = u8;

    ghost exact = { ⊤ };

    ghost table = { (codes "CRC32", 1) ∷ (codes "RDP", 2) ∷ (codes "XTEA", 4) ∷ (codes "HMAC", 8) ∷ (codes "FRAG", 16) ∷ [] };

    ghost set_of = { λ f. f.0 };

    fn flags<'a>() -> &'a [Flag<FlagSet>] {
        FlagSet::FLAGS
    }

    fn bits(&self) -> u8 {
        self.0
    }

    fn from_bits_retain(bits: u8) -> FlagSet {
        FlagSet(bits)
    }
}
