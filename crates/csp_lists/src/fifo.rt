//! A bounded list: first in, first out.

ghost use Rattle.std.specs.Prelude.{◌≡◌, ◌+◌, ◌-◌, ◌<◌, ◌≤◌, List, [], ◌∷◌, ◌++◌, length, slice_index_or, IfOk, MatchOption, MatchResult};
ghost use Rattle.csp_lists.specs.PlainFifo.{with_items};

use std::alloc::{AllocError, Global};
use std::collections::VecDeque;
use std::marker::Model;

/// A list with room for so many elements, that gives them in the order in which it took them.
///
/// It took its room when it was opened. It must be spent by `end`, when it is empty, or `into_vec`.
pub struct Fifo<T> {
    items: VecDeque<T>,
    room: usize,
}

impl<T> Model for Fifo<T> {
    ghost use Rattle.std.specs.Prelude.{◌≤◌, length};
    ghost use Rattle.std.specs.VecDeque.{deque_len, deque_capacity};
    ghost use Rattle.csp_lists.specs.PlainFifo.{PlainFifo, fifo_code};

    ghost Value = { PlainFifo T };

    ghost coded = { fifo_code T.code };

    ghost view = { λ f. record { room = f.room; items = f.items.items } };

    ghost invariant = { λ f. (length f.items.items ≤ f.room) × (f.room ≤ deque_capacity f.items) };
}

impl<T> Fifo<T> {
    /// An empty list with room for `room` elements.
    pub fn open(alloc: Global, room: usize) -> Result<Fifo<T>, AllocError>
        ensures { IfOk result (λ f. f ≡ record { room = room; items = [] }) }
    {
        let items = VecDeque::with_capacity(alloc, room)?;
        Ok(Fifo {
            room: items.capacity(),
            items,
        })
    }

    /// A full list of these elements, the first first. It takes no memory.
    pub fn full_of(elements: Vec<T>) -> Fifo<T>
        ensures { result ≡ record { room = length elements.items; items = elements.items } }
    {
        let room = elements.len();
        Fifo {
            items: VecDeque::from_vec(elements),
            room,
        }
    }

    /// The number of elements.
    pub fn len(&self) -> usize
        ensures { result ≡ length self.now.items }
    {
        self.items.len()
    }

    /// The element of this index, counted from 0 at the front.
    pub fn get(&self, index: usize) -> &T
        requires { index < length self.now.items }
        ensures { result.now ≡ slice_index_or self.now.items index result.now }
    {
        &self.items[index]
    }

    /// Appends an element, or hands it back where the list is full.
    pub fn push(&mut self, element: T) -> Result<(), T>
        ensures answer { MatchResult result
            (λ _. (length self.old.items < self.old.room) × (self.new ≡ with_items self.old (self.old.items ++ element ∷ [])))
            (λ e. (self.old.room ≤ length self.old.items) × (self.new ≡ self.old) × (e ≡ element)) }
    {
        if self.items.len() < self.room {
            self.items.push_back_reserved(element);
            Ok(())
        } else {
            Err(element)
        }
    }

    /// Takes the first element, if there is one.
    pub fn pop(&mut self) -> Option<T>
        ensures answer { MatchOption result
            ((self.old.items ≡ []) × (self.new ≡ self.old))
            (λ e. (self.old.items ≡ e ∷ self.new.items) × (self.new ≡ with_items self.old self.new.items)) }
    {
        self.items.pop_front()
    }

    /// The elements, the first first.
    pub fn into_vec(self) -> Vec<T>
        ensures items { result.items ≡ self.items }
    {
        let Fifo { items, room: _ } = self;
        items.into_vec()
    }

    /// Ends an empty list.
    pub fn end(self)
        requires { self.items ≡ [] }
    {
        let Fifo { items, room: _ } = self;
        items.destroy_empty();
    }
}
