//! A line's words against what stands in their places.

ghost use Rattle.std.specs.Prelude.{◌≡◌, ◌&&◌, ◌≤◌, ◌<◌, IsTrue, length, drop, map};
ghost use Rattle.std.specs.List.{list_all};
ghost use Rattle.csp_scene.specs.Table.{keyword_text};
ghost use Rattle.csp_scene.specs.Moves.{is_move, owner_of, owned_of, has_dot, dot_place};
ghost use Rattle.csp_scene.specs.Checks.{is_in_range, has_bytes, is_fixed, is_named, is_numbered, passes, all_pass, last_part, takes_more, has_count, whole_passes};

use crate::limits::MAX_HUB_NODES;
use crate::step_words::is_move;
use crate::table::Part;
use csp_text::{byte_digits, is_bytes, is_hex_word, is_name, number};

/// What is looked at: the fixed words, the names, or the numbers and hexadecimal texts.
#[derive(Clone, Copy)]
pub(crate) enum Check {
    Fixed,
    Name,
    Number,
}

/// Whether a word is a decimal number from `low` to `high`.
fn is_in_range(word: &[u8], low: u32, high: u32) -> bool
    ensures { result ≡ is_in_range low high word.now }
{
    match number(word) {
        Some(value) => u64::from(low) <= value && value <= u64::from(high),
        None => false,
    }
}

/// Whether a word is hexadecimal text of `least` to `most` bytes.
fn has_bytes(word: &[u8], least: u32, most: u32) -> bool
    ensures { result ≡ has_bytes least most word.now }
{
    if !is_bytes(word) {
        return false;
    }
    let count = byte_digits(word).len() / 2;
    least as usize <= count && count <= most as usize
}

/// Whether a word is the fixed word of its place, or one of two.
fn is_fixed(part: Part, word: &[u8]) -> bool
    ensures { result ≡ is_fixed part word.now }
{
    match part {
        Part::Fixed(keyword) => word == keyword.text(),
        Part::Either(one, other) => word == one.text() || word == other.text(),
        _ => true,
    }
}

/// Whether a word has the form of a name, where one stands in its place.
fn is_named(part: Part, word: &[u8]) -> bool
    ensures { result ≡ is_named part word.now }
{
    match part {
        Part::Name | Part::Nodes => is_name(word),
        Part::Moves => is_move(word),
        _ => true,
    }
}

/// Whether a word is a number or hexadecimal text in its range, where one stands in its place.
fn is_numbered(part: Part, word: &[u8]) -> bool
    ensures { result ≡ is_numbered part word.now }
{
    match part {
        Part::Number { low, high } => is_in_range(word, low, high),
        Part::Word => is_hex_word(word),
        Part::Bytes { least, most } => has_bytes(word, least, most),
        _ => true,
    }
}

/// Whether a word passes a check against what stands in its place.
fn passes(check: Check, part: Part, word: &[u8]) -> bool
    ensures { result ≡ passes check part word.now }
{
    match check {
        Check::Fixed => is_fixed(part, word),
        Check::Name => is_named(part, word),
        Check::Number => is_numbered(part, word),
    }
}

/// Whether all words pass a check, each against what stands in its place.
fn all_pass(check: Check, shape: &[Part], args: &[&[u8]]) -> bool
    ensures { result ≡ all_pass check shape.now (map (λ word. word.now) args.now) }
{
    shape
        .iter()
        .zip(args)
        .all(|(part, word)| passes(check, *part, word))
}

/// The last part of a shape.
fn last_part(shape: &[Part]) -> Part
    ensures { result ≡ last_part shape.now }
{
    match shape {
        [.., part] => *part,
        [] => Part::Name,
    }
}

/// Whether a part takes so many words more than one.
fn takes_more(part: Part, more: usize) -> bool
    ensures { result ≡ takes_more part more }
{
    match part {
        Part::Moves | Part::Text => true,
        Part::Nodes => more <= MAX_HUB_NODES - 2,
        _ => more == 0,
    }
}

/// Whether a shape has so many words.
pub(crate) fn has_count(shape: &[Part], count: usize) -> bool
    ensures { result ≡ has_count shape.now count }
{
    shape.len() <= count && takes_more(last_part(shape), count - shape.len())
}

/// Whether each of these words passes a check against one part.
fn each_passes(check: Check, part: Part, words: &[&[u8]]) -> bool
    ensures { result ≡ list_all (passes check part) (map (λ word. word.now) words.now) }
{
    words.iter().all(|word| passes(check, part, word))
}

/// The words past the first so many.
pub(crate) fn past<'a, 'b>(words: &'a [&'b [u8]], count: usize) -> &'a [&'b [u8]]
    requires { count ≤ length words.now }
    ensures { map (λ word. word.now) result.now ≡ drop count (map (λ word. word.now) words.now) }
{
    &words[count..]
}

/// Whether all words pass a check, those past the shape's end against its last part.
pub(crate) fn whole_passes(check: Check, shape: &[Part], args: &[&[u8]]) -> bool
    requires { length shape.now ≤ length args.now }
    ensures { result ≡ whole_passes check shape.now (map (λ word. word.now) args.now) }
{
    all_pass(check, shape, args) && each_passes(check, last_part(shape), past(args, shape.len()))
}
