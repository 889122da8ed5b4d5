//! What stands in a case for what would be too long to write out.

use crate::told_text::ToldText;
use std::alloc::Global;

/// The most times that a piece is repeated.
const MOST: u64 = 2_000_000;

/// A text with each `{COUNT*PIECE}` replaced by so many pieces, and each `{FIRST..LAST*PIECE}` by a piece for each
/// number, in which `%` stands for the number, and each `{NAME}` by the piece of this name.
pub(crate) fn expanded(alloc: Global, pieces: &str, text: &ToldText) -> ToldText {
    let mut whole = ToldText::of(alloc, text);
    let text = text.as_str().trim();
    let (head, tail) = text.split_once("{").unwrap_or((text, ""));
    whole.push(head);
    if head.len() < text.len() {
        for part in tail.split("{") {
            push_part(&mut whole, pieces, part);
        }
    }
    whole
}

/// Appends what stands for a part up to its brace, and the rest as it stands.
fn push_part(whole: &mut ToldText, pieces: &str, part: &str) {
    match part.split_once("}") {
        None => whole.misread(),
        Some((spec, tail)) => {
            match spec.split_once("*") {
                None => push_named(whole, pieces, spec),
                Some((count, piece)) => push_pieces(whole, count, piece),
            }
            whole.push(tail);
        }
    }
}

/// Appends the piece of this name.
fn push_named(whole: &mut ToldText, pieces: &str, name: &str) {
    for line in pieces.lines() {
        match line.split_once(" := ") {
            Some((other, piece)) if other.trim() == name => return whole.push(piece),
            _ => {}
        }
    }
    whole.misread();
}

/// Appends so many pieces, or one for each of these numbers.
fn push_pieces(whole: &mut ToldText, count: &str, piece: &str) {
    match count.split_once("..") {
        None => {
            for _ in 0..whole.number(count, MOST) {
                whole.push(piece);
            }
        }
        Some((first, last)) => {
            for number in whole.number(first, MOST)..=whole.number(last, MOST) {
                push_numbered(whole, piece, number);
            }
        }
    }
}

/// Appends a piece in which this number stands for each `%`.
fn push_numbered(whole: &mut ToldText, piece: &str, number: u64) {
    let mut is_first = true;
    for part in piece.split("%") {
        if !is_first {
            write!(whole, "{number}");
        }
        whole.push(part);
        is_first = false;
    }
}
