//! The next of a list that must be walked to its end.

ghost use Rattle.std.specs.Prelude.{◌≡◌, ◌≢◌, ◌∷◌, []};

use std::collections::VecDeque;

/// Takes the first out of a list that has one.
pub(crate) fn next<T>(list: &mut VecDeque<T>) -> T
    requires { list.old.items ≢ [] }
    ensures { list.old.items ≡ result ∷ list.new.items }
{
    match list.pop_front() {
        Some(first) => first,
        None => unreachable!(),
    }
}
