//! Bytes and 32-bit words as hexadecimal digits, read in either case and written in lower case.

ghost use Rattle.std.specs.Prelude.{◌≡◌, ◌*◌, ◌++◌, length, IsTrue, IfOk, OnOk};
ghost use Rattle.std.specs.List.{list_all};
ghost use Rattle.std.specs.Str.{bytes_eq};
ghost use Rattle.std.specs.String.{string_bytes};
ghost use Rattle.hex.specs.Hex.{is_hex_digit, encode_lower};
ghost use Rattle.csp_text.specs.Hexadecimal.{is_hex, hex_bytes, no_bytes, is_bytes, byte_digits, bytes_of, is_hex_word, hex_number};

use crate::ascii::text;
use std::alloc::{AllocError, Global};

/// How many hexadecimal digits a 32-bit word has.
pub const WORD_DIGITS: usize = 8;

fn is_digit(byte: u8) -> bool
    ensures { result ≡ is_hex_digit byte }
{
    byte >= b'A' && byte <= b'F' || byte >= b'a' && byte <= b'f' || byte >= b'0' && byte <= b'9'
}

fn are_digits(word: &[u8]) -> bool
    ensures { result ≡ list_all is_hex_digit word.now }
{
    word.iter().all(|byte| is_digit(*byte))
}

/// Whether a word is pairs of hexadecimal digits, in either case.
pub fn is_hex(word: &[u8]) -> bool
    ensures { result ≡ is_hex word.now }
{
    word.len() % 2 == 0 && are_digits(word)
}

/// The bytes that hexadecimal digits write.
///
/// # Errors
/// Want of memory.
pub fn hex_bytes(alloc: Global, word: &[u8]) -> Result<Vec<u8>, AllocError>
    requires { IsTrue (is_hex word.now) }
    ensures { IfOk result (λ bytes. bytes.items ≡ hex_bytes word.now) }
{
    match hex::decode(alloc, word) {
        Ok(bytes) => Ok(bytes),
        // Pairs of digits are refused for want of memory alone.
        Err(_) => Err(AllocError),
    }
}

/// Whether a word says that there are no bytes.
fn has_no_bytes(word: &[u8]) -> bool
    ensures { result ≡ bytes_eq word.now no_bytes }
{
    word == b"-".as_slice()
}

/// Whether a word writes bytes: `-` for none, or pairs of hexadecimal digits, in either case.
pub fn is_bytes(word: &[u8]) -> bool
    ensures { result ≡ is_bytes word.now }
{
    has_no_bytes(word) || !word.is_empty() && is_hex(word)
}

/// The digits of a word that writes bytes: none where it is `-`.
pub fn byte_digits(word: &[u8]) -> &[u8]
    requires { IsTrue (is_bytes word.now) }
    ensures value { result.now ≡ byte_digits word.now }
    ensures hex { IsTrue (is_hex result.now) }
    ensures pairs { length result.now ≡ 2 * length (bytes_of word.now) }
{
    if has_no_bytes(word) {
        return b"";
    }
    word
}

/// Whether a word is the eight hexadecimal digits of a 32-bit word, in either case.
pub fn is_hex_word(word: &[u8]) -> bool
    ensures { result ≡ is_hex_word word.now }
{
    word.len() == WORD_DIGITS && are_digits(word)
}

/// The 32-bit word that eight hexadecimal digits write, the highest digit first.
pub fn hex_word(word: &[u8]) -> u32
    requires { IsTrue (is_hex_word word.now) }
    ensures { result ≡ hex_number word.now }
{
    match u32::from_str_radix(text(word), 16) {
        Ok(number) => number,
        Err(_) => unreachable!(),
    }
}

/// Appends bytes as hexadecimal digits, in lower case.
pub fn push_hex(alloc: Global, out: &mut String, bytes: &[u8]) -> Result<(), AllocError>
    ensures { OnOk result (string_bytes out.new ≡ string_bytes out.old ++ encode_lower bytes.now) }
{
    let digits = hex::encode(alloc, bytes)?;
    out.push_str(&digits)
}
