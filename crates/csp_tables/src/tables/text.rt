//! Text as every reader cuts it: `text lines TEXT`, `text words TEXT`, `text number WORD`, `text name WORD`,
//! `text bytes WORD`, `text word WORD`.

use csp_cases::Case;
use csp_text::{
    byte_digits, hex_bytes, hex_word, is_bytes, is_hex_word, lines, name, number, words,
};

/// Tells how many lines or words a text has, or what a word stands for.
pub(super) fn answer(case: &mut Case) {
    let how = case.word();
    let text = case.unescaped(case.rest());
    let word = text.as_slice();
    let parts = match how {
        "lines" => lines(case.alloc(), word),
        "words" => words(case.alloc(), word),
        _ => return of_word(case, how, word),
    };
    match parts {
        Ok(parts) => case.tell_number(parts.len() as u64),
        Err(_) => case.lacks_memory(),
    }
}

/// Tells what a word stands for.
fn of_word(case: &mut Case, how: &str, word: &[u8]) {
    match how {
        "number" => match number(word) {
            Some(value) => case.tell_number(u64::from(value)),
            None => case.tell("none"),
        },
        "name" => case.tell_whether(name(word).is_some()),
        "bytes" => bytes(case, word),
        "word" if is_hex_word(word) => case.tell_number(u64::from(hex_word(word))),
        "word" => case.tell("none"),
        _ => case.misread(),
    }
}

/// Tells the bytes that hexadecimal digits stand for.
fn bytes(case: &mut Case, word: &[u8]) {
    if !is_bytes(word) {
        return case.tell("none");
    }
    match hex_bytes(case.alloc(), byte_digits(word)) {
        Ok(bytes) => {
            case.tell("bytes ");
            case.tell_bytes(bytes.as_slice());
        }
        Err(_) => case.lacks_memory(),
    }
}
