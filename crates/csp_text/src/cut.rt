//! Lines of a text and words of a line.

ghost use Rattle.std.specs.Prelude.{◌≡◌, IfOk, map};
ghost use Rattle.csp_text.specs.Cut.{lines_of, words_of, without_line_feed};

use std::alloc::{AllocError, Global};

/// A text without the line feed that it may end with.
fn without_line_feed(text: &[u8]) -> &[u8]
    ensures { result.now ≡ without_line_feed text.now }
{
    match text {
        [front @ .., b'\n'] => front,
        _ => text,
    }
}

/// The lines of a text. They end with a line feed, which the last may lack; an empty text has
/// no line.
pub fn lines(alloc: Global, text: &[u8]) -> Result<Vec<&[u8]>, AllocError>
    ensures { IfOk result (λ lines. map (λ line. line.now) lines.items ≡ lines_of text.now) }
{
    if text.is_empty() {
        return Ok(Vec::new(alloc));
    }
    without_line_feed(text)
        .split(|byte| *byte == b'\n')
        .collect(alloc)
}

/// The words of a line, which spaces separate. Spaces at its ends, and several between two
/// words, mean nothing.
pub fn words(alloc: Global, line: &[u8]) -> Result<Vec<&[u8]>, AllocError>
    ensures { IfOk result (λ words. map (λ word. word.now) words.items ≡ words_of line.now) }
{
    line.split(|byte| *byte == b' ')
        .filter(|word| !word.is_empty())
        .collect(alloc)
}
