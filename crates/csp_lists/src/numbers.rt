//! Which buffers stand in a list.

ghost use Rattle.std.specs.Prelude.{◌≡◌, ℕ, List, [], ◌∷◌, nat_lt};
ghost use Rattle.std.specs.List.{flat_map};
ghost use Rattle.csp_deck.specs.Step.{item_numbers, times};
ghost use Rattle.csp_log.specs.Pictures.{shown_item};

use crate::fifo::Fifo;
use csp_buffer::Buffer;
use csp_deck::Item;

/// What may hold a buffer.
pub trait Numbered {
    /// The numbers of the buffers that it holds.
    ghost numbers: { Self → List ℕ };

    /// Whether the buffer of this number is one of them.
    fn has(&self, number: u16) -> bool
        ensures { result ≡ nat_lt 0 (times number (numbers self.now)) };
}

impl Numbered for Buffer {
    ghost numbers = { λ b. b.picture.number ∷ [] };

    fn has(&self, number: u16) -> bool {
        self.number() == number
    }
}

impl Numbered for Item {
    ghost numbers = { λ i. item_numbers (shown_item i) };

    fn has(&self, number: u16) -> bool {
        match self {
            Item::Packet { buffer, .. } => buffer.has(number),
            Item::Frame(_) | Item::Note(_) => false,
        }
    }
}

/// Whether the buffer of this number stands in a list.
pub fn holds<T: Numbered>(list: &Fifo<T>, number: u16) -> bool
    ensures { result ≡ nat_lt 0 (times number (flat_map T.numbers list.now.items)) }
{
    for at in 0..list.len() {
        if list.get(at).has(number) {
            return true;
        }
    }
    false
}
