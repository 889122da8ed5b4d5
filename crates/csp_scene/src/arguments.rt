//! The words of a line after the first, each by its place.

ghost use Rattle.std.specs.Prelude.{◌≡◌, ◌<◌, ◌≤◌, ◌^◌, ◌+◌, map, IsTrue, IfSome, IfOk, length, drop, nat_lt};
ghost use Rattle.std.specs.List.{flat_map};
ghost use Rattle.csp_text.specs.Names.{is_name};
ghost use Rattle.csp_text.specs.Numbers.{is_decimal};
ghost use Rattle.csp_text.specs.Hexadecimal.{is_bytes, bytes_of};
ghost use Rattle.csp_scene.specs.Arguments.{word_at, number_at, is_keyword, keyword_place, has_keyword, setting, spaced, text_from};
ghost use Rattle.csp_scene.specs.Kept.{Fits, FitsShape, part_at, IsNamePart, IsNumberPart, IsInPart, has_setting, range_of};

use crate::table::{Form, Keyword, Part};
use csp_base::Name;
use csp_text::{byte_digits, hex_bytes, name, number};
use std::alloc::{AllocError, Global};

/// The word in a place, or an empty one where there are fewer words.
pub(crate) fn word_at<'a>(args: &[&'a [u8]], place: usize) -> &'a [u8]
    ensures { result.now ≡ word_at (map (λ word. word.now) args.now) place }
{
    match args.get(place) {
        Some(word) => word,
        None => b"",
    }
}

/// The name in a place of a form's lines.
pub(crate) fn name_at(form: Form, args: &[&[u8]], place: usize) -> Name
    requires fits { Fits form (map (λ word. word.now) args.now) }
    requires name { IsNamePart (part_at form place) }
    ensures value { result.bytes ≡ word_at (map (λ word. word.now) args.now) place }
    ensures form { IsTrue (is_name result.bytes) }
{
    match name(word_at(args, place)) {
        Some(name) => name,
        None => unreachable!(),
    }
}

/// The number in a place of a form's lines.
pub(crate) fn number_at(form: Form, args: &[&[u8]], place: usize) -> u32
    requires fits { Fits form (map (λ word. word.now) args.now) }
    requires number { IsNumberPart (part_at form place) }
    ensures value { result ≡ number_at (map (λ word. word.now) args.now) place }
    ensures range { IsInPart (part_at form place) result }
{
    match number(word_at(args, place)) {
        Some(number) => number as u32,
        None => unreachable!(),
    }
}

/// The bytes in a place.
pub(crate) fn bytes_at(alloc: Global, args: &[&[u8]], place: usize) -> Result<Vec<u8>, AllocError>
    requires { IsTrue (is_bytes (word_at (map (λ word. word.now) args.now) place)) }
    ensures { IfOk result (λ bytes. bytes.items ≡ bytes_of (word_at (map (λ word. word.now) args.now) place)) }
{
    hex_bytes(alloc, byte_digits(word_at(args, place)))
}

/// Whether a part of a line is this fixed word.
fn is_keyword(part: Part, keyword: Keyword) -> bool
    ensures { result ≡ is_keyword keyword part }
{
    match part {
        Part::Fixed(other) => other.text() == keyword.text(),
        _ => false,
    }
}

/// The place of a fixed word in a shape, where the shape has it.
fn keyword_place(keyword: Keyword, shape: &[Part]) -> Option<usize>
    ensures { result ≡ keyword_place keyword shape.now }
{
    shape.iter().position(|part| is_keyword(*part, keyword))
}

/// Whether a shape has a fixed word.
pub(crate) fn has_keyword(keyword: Keyword, shape: &[Part]) -> bool
    ensures { result ≡ has_keyword keyword shape.now }
{
    shape.iter().any(|part| is_keyword(*part, keyword))
}

/// The number that follows an optional word of a form, where the line has that word.
pub(crate) fn setting(form: Form, keyword: Keyword, shape: &[Part], args: &[&[u8]]) -> Option<u32>
    requires fits { FitsShape form shape.now (map (λ word. word.now) args.now) }
    requires setting { IsTrue (has_setting form keyword) }
    ensures value { result ≡ setting keyword shape.now (map (λ word. word.now) args.now) }
    ensures range { IfSome result (λ number. ((range_of form keyword).0 ≤ number) × (number ≤ (range_of form keyword).1)) }
{
    let place = keyword_place(keyword, shape)?;
    match number(word_at(args, place + 1)) {
        Some(number) => Some(number as u32),
        None => unreachable!(),
    }
}

/// The text of a line from a place on: its words there, a space before each.
pub(crate) fn text_from(alloc: Global, args: &[&[u8]], place: usize) -> Result<Vec<u8>, AllocError>
    requires { place ≤ length args.now }
    ensures { IfOk result (λ text. text.items ≡ text_from (map (λ word. word.now) args.now) place) }
{
    let mut text = Vec::new(alloc);
    for word in &args[place..] {
        text.push(b' ')?;
        text.extend_from_slice(word)?;
    }
    Ok(text)
}
