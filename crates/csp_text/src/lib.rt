//! Text as every reader of this project cuts it: lines, words, decimal numbers, names
//! and hexadecimal digits.
//!
//! All of it works on bytes, since what comes in need not be text. The definitions that the
//! clauses cite stand in `specs/`, one file for each module.
#![tactic(auto)]

mod ascii;
mod cut;
mod hexadecimal;
mod naming;
mod numeral;

pub use cut::{lines, words};
pub use hexadecimal::{
    WORD_DIGITS, byte_digits, hex_bytes, hex_word, is_bytes, is_hex, is_hex_word, push_hex,
};
pub use naming::{MAX_NAME, is_name, name};
pub use numeral::{is_decimal, number, push_number};
