//! Names of nodes, applications and links.

ghost use Rattle.std.specs.Prelude.{◌≡◌, is_some, IfSome};
ghost use Rattle.std.specs.List.{list_all};
ghost use Rattle.csp_text.specs.Names.{is_letter, is_name_byte, begins_as_name, is_name};

use crate::ascii::text;
use csp_base::Name;

/// The most bytes that a name has.
pub const MAX_NAME: usize = 11;

fn is_letter(byte: u8) -> bool
    ensures { result ≡ is_letter byte }
{
    byte >= b'a' && byte <= b'z'
}

fn is_name_byte(byte: u8) -> bool
    ensures { result ≡ is_name_byte byte }
{
    is_letter(byte) || byte >= b'0' && byte <= b'9' || byte == b'_'
}

fn are_name_bytes(word: &[u8]) -> bool
    ensures { result ≡ list_all is_name_byte word.now }
{
    word.iter().all(|byte| is_name_byte(*byte))
}

fn begins_as_name(word: &[u8]) -> bool
    ensures { result ≡ begins_as_name word.now }
{
    match word {
        [] => false,
        [first, ..] => is_letter(*first),
    }
}

/// Whether a word has the form of a name: a letter `a` to `z`, and up to 10 letters, digits
/// and `_`.
pub fn is_name(word: &[u8]) -> bool
    ensures { result ≡ is_name word.now }
{
    begins_as_name(word) && word.len() <= MAX_NAME && are_name_bytes(word)
}

/// The word as a name, exactly where it has the form of one.
pub fn name(word: &[u8]) -> Option<Name>
    ensures variant { is_some result ≡ is_name word.now }
    ensures value { IfSome result (λ name. name.bytes ≡ word.now) }
{
    if !is_name(word) {
        return None;
    }
    Name::from(text(word)).ok()
}
