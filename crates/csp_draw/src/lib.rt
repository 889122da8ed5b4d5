//! Numbers drawn one after the other, by which shuffled schedules name parties and generated scenarios name
//! frames. The first is given, so the same draws come again.
#![tactic(auto)]

ghost use Rattle.std.specs.Prelude.{◌≡◌, ◌<◌};
ghost use Rattle.csp_draw.specs.Draws.{next_draw, drawn};

/// From draw to draw the number is multiplied by this and `STEP` is added, modulo 2^64.
pub const FACTOR: u64 = 6_364_136_223_846_793_005;

/// What is added to a number.
pub const STEP: u64 = 1_442_695_040_888_963_407;

/// How many of a number's low bits don't count for what it draws.
pub const SHIFT: u32 = 33;

/// The number after this one.
pub fn next_draw(number: u64) -> u64
    ensures { result ≡ next_draw number }
{
    number.wrapping_mul(FACTOR).wrapping_add(STEP)
}

/// Which of so many choices, counted from 0, this number draws.
pub fn drawn(choices: u64, number: u64) -> u64
    requires { 0 < choices }
    ensures choice { result ≡ drawn choices number }
    ensures there { result < choices }
{
    (number >> SHIFT) % choices
}
