//! Decimal numbers, read and written.

ghost use Rattle.std.specs.Prelude.{◌≡◌, ◌<◌, ◌^◌, ◌++◌, IsTrue, OnOk};
ghost use Rattle.std.specs.Str.{all_ascii_digits};
ghost use Rattle.std.specs.Option.{SomeIff};
ghost use Rattle.std.specs.Fmt.{decimal};
ghost use Rattle.std.specs.String.{string_bytes};
ghost use Rattle.csp_text.specs.Numbers.{is_decimal, begins_as_number, number_of};

use crate::ascii::text;
use std::alloc::AllocError;
use std::fmt::Write;

fn are_digits(word: &[u8]) -> bool
    ensures { result ≡ all_ascii_digits word.now }
{
    word.iter().all(|byte| byte.is_ascii_digit())
}

fn begins_as_number(word: &[u8]) -> bool
    ensures { result ≡ begins_as_number word.now }
{
    match word {
        [] => false,
        [_] => true,
        [first, ..] => *first != b'0',
    }
}

/// Whether a word is a decimal number: digits without a sign, and without a leading zero where
/// there are several.
pub fn is_decimal(word: &[u8]) -> bool
    ensures { result ≡ is_decimal word.now }
{
    begins_as_number(word) && are_digits(word)
}

/// The number that a word writes, exactly where the word is a decimal number below 2^64. A word
/// of any length is judged.
pub fn number(word: &[u8]) -> Option<u64>
    ensures { SomeIff result (IsTrue (is_decimal word.now) × (number_of word.now < 2 ^ 64)) (number_of word.now) }
{
    if !is_decimal(word) {
        return None;
    }
    text(word).parse().ok()
}

/// Appends the digits of a number. They are digits alone, so no line feed and no space is among
/// them.
pub fn push_number(out: &mut String, number: u64) -> Result<(), AllocError>
    ensures bytes { OnOk result (string_bytes out.new ≡ string_bytes out.old ++ decimal number) }
    ensures digits { IsTrue (all_ascii_digits (decimal number)) }
{
    match write!(out, "{number}") {
        Ok(()) => Ok(()),
        Err(_) => Err(AllocError),
    }
}
