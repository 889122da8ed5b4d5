//! Lines of words.

ghost use Rattle.std.specs.Prelude.{◌≡◌, ℕ, ◌+◌, ◌*◌, ◌≤◌, ◌<◌, ◌++◌, ◌∷◌, [], length, slice_index, OnOk};
ghost use Rattle.std.specs.Fmt.{decimal};
ghost use Rattle.hex.specs.Hex.{encode_lower, lower_digits};
ghost use Rattle.csp_tap.specs.Words.{spaced};
ghost use Rattle.csp_tap.specs.declared.words.TheConstants.{ROOM};

use arrayvec::ArrayVec;
use itoa::Buffer;
use std::alloc::AllocError;

/// Room for a line without its payload, whose numbers may have 20 digits each.
pub(crate) const ROOM: usize = 240;

/// A line that is made, or as much of one as stands before a payload or after it.
pub(crate) type Line = ArrayVec<u8, ROOM>;

/// Appends bytes, for which there is room.
#[inline(always)]
pub(crate) fn put<const CAP: usize>(line: &mut ArrayVec<u8, CAP>, bytes: &[u8])
    requires { length line.old.items + length bytes.now ≤ CAP }
    ensures { line.new.items ≡ line.old.items ++ bytes.now }
{
    let _all = line.try_extend_from_slice(bytes);
}

/// Appends the first word of a line.
#[inline(always)]
pub(crate) fn begin_line(line: &mut Line, word: &str)
    requires { length line.old.items + length word.now ≤ ROOM }
    ensures { line.new.items ≡ line.old.items ++ word.now }
{
    put(line, word.as_bytes());
}

/// Appends a further word.
#[inline(always)]
pub(crate) fn put_word(line: &mut Line, word: &str)
    requires { length line.old.items + (1 + length word.now) ≤ ROOM }
    ensures { line.new.items ≡ line.old.items ++ spaced word.now }
{
    line.push(b' ');
    put(line, word.as_bytes());
}

/// Appends a number in decimal digits.
#[tactic(auto, using(crate::proofs::Digits::one_digit))]
fn put_digits(line: &mut Line, number: u64)
    requires { length line.old.items + 20 ≤ ROOM }
    ensures items { line.new.items ≡ line.old.items ++ decimal number }
    ensures fits { length line.new.items ≤ length line.old.items + 20 }
{
    if number < 10 {
        line.push(b'0' + number as u8);
    } else if number < 100 {
        line.push(b'0' + (number / 10) as u8);
        line.push(b'0' + (number % 10) as u8);
    } else {
        put_long(line, number);
    }
}

/// The same, by any number of digits.
fn put_long(line: &mut Line, number: u64)
    requires { length line.old.items + 20 ≤ ROOM }
    ensures items { line.new.items ≡ line.old.items ++ decimal number }
    ensures fits { length line.new.items ≤ length line.old.items + 20 }
{
    let mut digits = Buffer::new();
    put(line, digits.format(number).as_bytes());
}

/// Appends a further word that is a number, in decimal digits.
#[inline(always)]
pub(crate) fn put_count(line: &mut Line, count: u64)
    requires { length line.old.items + 21 ≤ ROOM }
    ensures items { line.new.items ≡ line.old.items ++ spaced (decimal count) }
    ensures fits { length line.new.items ≤ length line.old.items + 21 }
{
    line.push(b' ');
    put_digits(line, count);
}

/// Appends a further word and the number that belongs to it.
#[inline(always)]
pub(crate) fn put_counted(line: &mut Line, word: &str, count: u64)
    requires { length line.old.items + (length word.now + 22) ≤ ROOM }
    ensures items { line.new.items ≡ line.old.items ++ (spaced word.now ++ spaced (decimal count)) }
    ensures fits { length line.new.items ≤ length line.old.items + (length word.now + 22) }
{
    put_word(line, word);
    put_count(line, count);
}

/// The digit of a number below 16.
#[inline(always)]
fn digit(number: u8) -> u8
    requires { number < 16 }
    ensures { result ≡ slice_index lower_digits number }
{
    b"0123456789abcdef"[usize::from(number)]
}

/// Appends the two hexadecimal digits of a byte.
#[inline(always)]
fn put_pair(line: &mut Line, byte: u8)
    requires { length line.old.items + 2 ≤ ROOM }
    ensures items { line.new.items ≡ line.old.items ++ encode_lower (byte ∷ []) }
    ensures fits { length line.new.items ≡ length line.old.items + 2 }
{
    line.push(digit(byte / 16));
    line.push(digit(byte % 16));
}

/// Appends a further word that is bytes, in hexadecimal digits.
#[inline(always)]
pub(crate) fn put_bytes(line: &mut Line, bytes: &[u8])
    requires { length line.old.items + (1 + 2 * length bytes.now) ≤ ROOM }
    ensures items { line.new.items ≡ line.old.items ++ spaced (encode_lower bytes.now) }
    ensures fits { length line.new.items ≤ length line.old.items + (1 + 2 * length bytes.now) }
{
    line.push(b' ');
    for byte in bytes {
        put_pair(line, *byte);
    }
}

/// Ends a line.
#[inline(always)]
pub(crate) fn end_line(line: &mut Line)
    requires { length line.old.items < ROOM }
    ensures { line.new.items ≡ line.old.items ++ 10 ∷ [] }
{
    line.push(b'\n');
}

/// Appends a line, or a part of one, to a text.
pub(crate) fn push_line(out: &mut Vec<u8>, line: &Line) -> Result<(), AllocError>
    ensures { OnOk result (out.new.items ≡ out.old.items ++ line.now.items) }
{
    out.extend_from_slice(line.as_slice())
}

/// Appends a further word to a text, which is bytes of any number, in hexadecimal digits.
pub(crate) fn push_bytes(out: &mut Vec<u8>, bytes: &[u8]) -> Result<(), AllocError>
    ensures { OnOk result (out.new.items ≡ out.old.items ++ spaced (encode_lower bytes.now)) }
{
    out.push(b' ')?;
    let start = out.len();
    let Some(end) = start.checked_add(2 * bytes.len()) else {
        return Err(AllocError);
    };
    out.resize(end, 0)?;
    let _all = hex::encode_to_slice(bytes, &mut out[start..]);
    Ok(())
}
