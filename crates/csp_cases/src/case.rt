//! One case while it is answered: the words that it asks, and what is told of them.

ghost use Rattle.std.specs.Prelude.{◌<◌, ◌≤◌, length};

use crate::told_text::ToldText;
use csp_base::{Addr, Port};
use csp_text::{byte_digits, hex_word, is_bytes, is_hex_word};
use std::alloc::{AllocError, Global};
use std::fmt::{Debug, Display};

/// What a case asks, and what is told of it. Words are read one after the other. A word that is not what it is read as
/// stands for 0 or nothing, and the case for no case; so does want of memory end the table. Who answers goes on.
#[derive(Drop)]
pub struct Case<'a> {
    alloc: Global,
    asked: &'a str,
    told: ToldText,
    is_next: bool,
}

impl<'a> Case<'a> {
    /// A case that asks this, of which nothing is told.
    pub(crate) fn of(alloc: Global, asked: &'a ToldText) -> Case<'a> {
        Case {
            alloc,
            asked: asked.as_str(),
            told: ToldText::of(alloc, asked),
            is_next: false,
        }
    }

    /// What was told.
    pub(crate) fn told(&self) -> &ToldText {
        &self.told
    }

    /// Where memory is taken from.
    pub fn alloc(&self) -> Global {
        self.alloc
    }

    /// Notes that something cannot be read.
    pub fn misread(&mut self) {
        self.told.misread();
    }

    /// Notes that memory was wanting.
    pub fn lacks_memory(&mut self) {
        self.told.noted(Err(AllocError));
    }

    /// Goes on with this text in place of what is left.
    pub fn turn_to(&mut self, asked: &'a str) {
        self.asked = asked;
    }

    /// What is left.
    pub fn rest(&self) -> &'a str {
        self.asked
    }

    /// Whether a word is left.
    pub fn has_more(&self) -> bool {
        !self.asked.trim().is_empty()
    }

    /// The next word.
    pub fn word(&mut self) -> &'a str {
        self.word_to(" ")
    }

    /// The next word, which ends before this mark.
    pub fn word_to(&mut self, mark: &str) -> &'a str {
        let text = self.asked.trim_start();
        if text.is_empty() {
            self.misread();
        }
        let (word, rest) = text.split_once(mark).unwrap_or((text, ""));
        self.asked = rest;
        word
    }

    /// Whether this is the next word, which is passed then.
    pub fn passes(&mut self, wanted: &str) -> bool {
        let before = self.asked;
        if self.word() == wanted {
            return true;
        }
        self.asked = before;
        false
    }

    /// The two texts around the first such mark.
    pub fn halves(&mut self, text: &'a str, mark: &str) -> (&'a str, &'a str) {
        match text.split_once(mark) {
            Some(halves) => halves,
            None => {
                self.misread();
                (text, "")
            }
        }
    }

    /// The number of at most 64 bits that a word states.
    pub fn long_of(&mut self, word: &str) -> u64 {
        self.told.number(word, u64::MAX)
    }

    /// The number of at most 32 bits that a word states.
    pub fn number_of(&mut self, word: &str) -> u32 {
        self.told.number(word, 0xFFFF_FFFF) as u32
    }

    /// The number of at most 16 bits that a word states.
    pub fn short_of(&mut self, word: &str) -> u16 {
        self.told.number(word, 0xFFFF) as u16
    }

    /// The number of at most 8 bits that a word states.
    pub fn small_of(&mut self, word: &str) -> u8 {
        self.told.number(word, 0xFF) as u8
    }

    /// The 32 bits that eight hexadecimal digits state.
    pub fn word_of(&mut self, word: &str) -> u32 {
        if is_hex_word(word.as_bytes()) {
            return hex_word(word.as_bytes());
        }
        self.misread();
        0
    }

    /// The bytes that a word states: hexadecimal digits, or `-` for none.
    pub fn bytes_of(&mut self, word: &str) -> Vec<u8> {
        if is_bytes(word.as_bytes()) {
            match hex::decode(self.alloc, byte_digits(word.as_bytes())) {
                Ok(bytes) => return bytes,
                Err(_) => self.lacks_memory(),
            }
        } else {
            self.misread();
        }
        Vec::new(self.alloc)
    }

    /// The bytes of a text in which `\n` stands for the end of a line, `\_` for a blank, `\t` for a tab and `\xHH` for
    /// the byte of these two digits.
    pub fn unescaped(&mut self, text: &str) -> Vec<u8> {
        let mut bytes = Vec::new(self.alloc);
        let mut is_first = true;
        for part in text.split("\\") {
            let rest = if is_first {
                part
            } else {
                self.unescape(&mut bytes, part)
            };
            self.append(&mut bytes, rest.as_bytes());
            is_first = false;
        }
        bytes
    }

    /// Appends the byte that the letter at the begin of a part stands for, and gives the rest.
    fn unescape<'b>(&mut self, bytes: &mut Vec<u8>, part: &'b str) -> &'b str {
        let (letter, rest) = part.split_at_checked(1).unwrap_or(("", part));
        match letter {
            "n" => self.append(bytes, b"\n"),
            "_" => self.append(bytes, b" "),
            "t" => self.append(bytes, b"\t"),
            "x" => return self.unescape_digits(bytes, rest),
            _ => self.misread(),
        }
        rest
    }

    /// Appends the byte of the two digits at the begin of a part, and gives the rest.
    fn unescape_digits<'b>(&mut self, bytes: &mut Vec<u8>, part: &'b str) -> &'b str {
        let (digits, rest) = part.split_at_checked(2).unwrap_or(("", part));
        let byte = self.bytes_of(digits);
        self.append(bytes, byte.as_slice());
        rest
    }

    /// Appends these bytes.
    fn append(&mut self, bytes: &mut Vec<u8>, more: &[u8]) {
        let made = bytes.extend_from_slice(more);
        self.told.noted(made);
    }

    /// The next word, a number of at most 64 bits.
    pub fn long(&mut self) -> u64 {
        let word = self.word();
        self.long_of(word)
    }

    /// The next word, a number of at most 32 bits.
    pub fn number(&mut self) -> u32 {
        let word = self.word();
        self.number_of(word)
    }

    /// The next word, a number of at most 16 bits.
    pub fn short(&mut self) -> u16 {
        let word = self.word();
        self.short_of(word)
    }

    /// The next word, a number of at most 8 bits.
    pub fn small(&mut self) -> u8 {
        let word = self.word();
        self.small_of(word)
    }

    /// The next words, numbers of at most 32 bits.
    pub fn numbers<const N: usize>(&mut self) -> [u32; N] {
        let mut numbers = [0; N];
        for number in &mut numbers {
            *number = self.number();
        }
        numbers
    }

    /// The next words, numbers of at most 16 bits.
    pub fn shorts<const N: usize>(&mut self) -> [u16; N] {
        let mut shorts = [0; N];
        for short in &mut shorts {
            *short = self.short();
        }
        shorts
    }

    /// The next word, a number below this one.
    pub fn below(&mut self, end: u8) -> u8
        requires { 0 < end }
        ensures { result < end }
    {
        let number = self.small();
        if number < end {
            return number;
        }
        self.misread();
        0
    }

    /// The next word, an address.
    pub fn addr(&mut self) -> Addr {
        Addr::new(self.below(32)).unwrap()
    }

    /// The next word, a port.
    pub fn port(&mut self) -> Port {
        Port::new(self.below(64)).unwrap()
    }

    /// The next word, of eight hexadecimal digits.
    pub fn hex_word(&mut self) -> u32 {
        let word = self.word();
        self.word_of(word)
    }

    /// The next word, bytes.
    pub fn bytes(&mut self) -> Vec<u8> {
        let word = self.word();
        self.bytes_of(word)
    }

    /// The next word, at most so many bytes.
    pub fn bytes_within(&mut self, most: usize) -> Vec<u8>
        ensures { length result.items ≤ most }
    {
        let bytes = self.bytes();
        if bytes.len() <= most {
            return bytes;
        }
        self.misread();
        Vec::new(self.alloc)
    }

    /// Goes on to one more answer.
    pub fn next(&mut self) {
        self.is_next = !self.told.is_empty();
    }

    /// Tells this of the case.
    pub fn tell(&mut self, text: &str) {
        if self.is_next {
            self.told.push(", ");
            self.is_next = false;
        }
        self.told.push(text);
    }

    /// Tells what `write!` makes.
    pub fn write_fmt<D: Display + Drop>(&mut self, text: D) {
        self.tell("");
        self.told.write_fmt(text);
    }

    /// Tells whether something holds.
    pub fn tell_whether(&mut self, holds: bool) {
        self.tell(if holds { "yes" } else { "no" });
    }

    /// Tells a number.
    pub fn tell_number(&mut self, number: u64) {
        write!(self, "{number}");
    }

    /// Tells a value, with the names of its fields.
    pub fn tell_shown<T: Debug>(&mut self, value: &T) {
        write!(self, "{value:?}");
    }

    /// Tells 32 bits by eight hexadecimal digits.
    pub fn tell_word(&mut self, word: u32) {
        write!(self, "{word:08x}");
    }

    /// Tells bytes by hexadecimal digits, none by `-`.
    pub fn tell_bytes(&mut self, bytes: &[u8]) {
        self.tell(if bytes.is_empty() { "-" } else { "" });
        self.told.push_hex(self.alloc, bytes);
    }
}

/// Who takes steps.
pub trait Steps {
    /// Takes the step that is asked, and tells what comes of it.
    fn step(&mut self, case: &mut Case);
}

/// Tells what comes of each step that is left, where a semicolon stands between two.
pub fn stepped<S: Steps>(case: &mut Case, who: &mut S) {
    for step in case.rest().split(";") {
        case.turn_to(step);
        case.next();
        who.step(case);
    }
}
