//! A text that is told piece by piece, and what went wrong on the way.

ghost use Rattle.std.specs.Prelude.{◌≤◌};

use std::alloc::{AllocError, Global};
use std::fmt::Display;

/// A text, and what went wrong on the way. Who tells need not stop for it.
#[derive(Drop)]
pub(crate) struct ToldText {
    text: String,
    is_misread: bool,
    lacks_memory: bool,
}

impl ToldText {
    /// An empty text.
    pub(crate) fn new(alloc: Global) -> ToldText {
        ToldText {
            text: String::new(alloc),
            is_misread: false,
            lacks_memory: false,
        }
    }

    /// An empty text for what is read in this one, where as much went wrong.
    pub(crate) fn of(alloc: Global, read: &ToldText) -> ToldText {
        ToldText {
            text: String::new(alloc),
            is_misread: read.is_misread,
            lacks_memory: read.lacks_memory,
        }
    }

    /// The text.
    pub(crate) fn as_str(&self) -> &str {
        self.text.as_str()
    }

    /// The text, unless memory was wanting.
    pub(crate) fn whole(self) -> Result<String, AllocError> {
        if self.lacks_memory {
            return Err(AllocError);
        }
        Ok(self.text)
    }

    /// Whether nothing is told yet.
    pub(crate) fn is_empty(&self) -> bool {
        self.text.is_empty()
    }

    /// Begins anew.
    pub(crate) fn clear(&mut self) {
        self.text.clear();
    }

    /// Notes that something cannot be read.
    pub(crate) fn misread(&mut self) {
        self.is_misread = true;
    }

    /// Notes where memory was wanting.
    pub(crate) fn noted(&mut self, made: Result<(), AllocError>) {
        self.lacks_memory = self.lacks_memory || made.is_err();
    }

    /// The number of at most so much that a word states, or 0.
    pub(crate) fn number(&mut self, word: &str, most: u64) -> u64
        ensures { result ≤ most }
    {
        match word.parse::<u64>() {
            Ok(number) if number <= most => number,
            _ => {
                self.is_misread = true;
                0
            }
        }
    }

    /// Appends a text.
    pub(crate) fn push(&mut self, text: &str) {
        let made = self.text.push_str(text);
        self.noted(made);
    }

    /// Appends what `write!` makes.
    pub(crate) fn write_fmt<D: Display + Drop>(&mut self, text: D) {
        let made = self.text.write_fmt(text);
        self.noted(made);
    }

    /// Appends bytes as hexadecimal digits.
    pub(crate) fn push_hex(&mut self, alloc: Global, bytes: &[u8]) {
        let made = csp_text::push_hex(alloc, &mut self.text, bytes);
        self.noted(made);
    }

    /// The answer that this is: the text, `-` for none, or that it is no case.
    fn answer(&self) -> &str {
        if self.is_misread {
            return "no case";
        }
        if self.text.is_empty() {
            return "-";
        }
        self.text.as_str()
    }

    /// Appends what was found in the case that ends in this line, where it is not what is wanted.
    pub(crate) fn push_difference(&mut self, line: u64, found: &ToldText, wanted: &str) {
        self.lacks_memory = self.lacks_memory || found.lacks_memory;
        let answer = found.answer();
        if found.is_misread || answer != wanted {
            write!(self, "  line {line}: {answer}\n");
        }
    }
}
