//! The step words of a schedule, each cut at its first dot.

ghost use Rattle.std.specs.Prelude.{◌≡◌, ◌==◌, ◌≤◌, ◌<◌, ◌||◌, not, length};
ghost use Rattle.csp_text.specs.Names.{is_name};
ghost use Rattle.csp_scene.specs.Moves.{dot_place, has_dot, owner_of, owned_of, is_move};

use csp_text::is_name;

/// The place of a word's first dot, or the number of its bytes.
fn dot_place(word: &[u8]) -> usize
    ensures value { result ≡ dot_place word.now }
    ensures inside { result ≤ length word.now }
{
    word.iter()
        .position(|byte| *byte == b'.')
        .unwrap_or(word.len())
}

/// Whether a word has a dot.
pub(crate) fn has_dot(word: &[u8]) -> bool
    ensures { result ≡ has_dot word.now }
{
    dot_place(word) < word.len()
}

/// What stands before the first dot: the whole word where it has none.
pub(crate) fn owner_of(word: &[u8]) -> &[u8]
    ensures { result.now ≡ owner_of word.now }
{
    &word[..dot_place(word)]
}

/// What stands after the first dot: nothing where there is none.
pub(crate) fn owned_of(word: &[u8]) -> &[u8]
    ensures { result.now ≡ owned_of word.now }
{
    let place = dot_place(word);
    if place >= word.len() {
        return b"";
    }
    &word[place + 1..]
}

/// Whether each part of a step word has the form of a name.
pub(crate) fn is_move(word: &[u8]) -> bool
    ensures { result ≡ is_move word.now }
{
    is_name(owner_of(word)) && (!has_dot(word) || is_name(owned_of(word)))
}
