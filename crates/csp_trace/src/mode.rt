//! What the words ask for: `timeline`; `svg`; `svg FROM TO`; `kiss LINK END`; `candump LINK END`; `unused`.

ghost use Rattle.std.specs.Prelude.{◌≡◌, map};
ghost use Rattle.std.specs.String.{string_bytes};
ghost use Rattle.csp_trace.specs.Modes.{mode_of, of_one, of_three, round_of, window_of};

use csp_exports::{EndName, Form};
use csp_picture::Window;
use csp_text::number;

/// What is to be told of a run.
#[derive(Drop)]
pub enum Mode<'a> {
    /// What happened, line by line: `timeline`.
    Timeline,
    /// The frames as a picture, of all rounds or of a window of them: `svg`, `svg FROM TO`.
    Picture(Option<Window>),
    /// The frames that an end put on its link, in this form: `kiss LINK END`, `candump LINK END`.
    Export(Form, EndName<'a>),
    /// What of the scene was of no use: `unused`.
    Unused,
}

/// What these words ask for. They don't hold the program's name. Every list of words outside the grammar asks for nothing. It
/// takes no memory.
pub(crate) fn mode_of<'a>(words: &'a [String]) -> Option<Mode<'a>>
    ensures { result ≡ mode_of (map string_bytes words.now) }
{
    match words {
        [word] => of_one(word.as_str().as_bytes()),
        [word, second, third] => of_three(
            word.as_str().as_bytes(),
            second.as_str(),
            third.as_str(),
        ),
        _ => None,
    }
}

/// What one word asks for.
#[tactic(auto, unfolding(crate::specs::Modes::of_one))]
fn of_one<'a>(word: &[u8]) -> Option<Mode<'a>>
    ensures { result ≡ of_one word.now }
{
    if word == b"timeline".as_slice() {
        Some(Mode::Timeline)
    } else if word == b"svg".as_slice() {
        Some(Mode::Picture(None))
    } else if word == b"unused".as_slice() {
        Some(Mode::Unused)
    } else {
        None
    }
}

/// The round that a word states.
fn round_of(word: &[u8]) -> Option<u64>
    ensures { result ≡ round_of word.now }
{
    number(word)
}

/// The window from one round to another, which is not before it.
fn window_of(from: Option<u64>, to: Option<u64>) -> Option<Window>
    ensures { result ≡ window_of from to }
{
    match (from, to) {
        (Some(from), Some(to)) if from <= to => Some(Window { from, to }),
        _ => None,
    }
}

/// What a word asks for with two more.
#[tactic(auto, unfolding(crate::specs::Modes::of_three))]
fn of_three<'a>(word: &[u8], second: &'a str, third: &'a str) -> Option<Mode<'a>>
    ensures { result ≡ of_three word.now second.now third.now }
{
    let name = EndName {
        link: second,
        node: third,
    };
    if word == b"kiss".as_slice() {
        Some(Mode::Export(Form::Kiss, name))
    } else if word == b"candump".as_slice() {
        Some(Mode::Export(Form::Candump, name))
    } else if word == b"svg".as_slice() {
        let window = window_of(round_of(second.as_bytes()), round_of(third.as_bytes()))?;
        Some(Mode::Picture(Some(window)))
    } else {
        None
    }
}
