//! What a CRC-32C tells apart.

ghost use Rattle.std.specs.Prelude.{◌≢◌, ℕ, List};
ghost use Rattle.csp_crc.specs.Crc.{crc_of};
ghost use Rattle.csp_noticed.specs.Flipping.{DifferInOneBit};

/// Two lists of bytes of one length that differ in one bit have different CRCs.
pub fn tells_one_bit()
    ensures { (xs ys : List ℕ) → DifferInOneBit xs ys → crc_of xs ≢ crc_of ys }
{}
