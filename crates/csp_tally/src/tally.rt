//! Who has the tally hands out its numbers, one after another, and takes the last one back while its ticket is unused.
//! Who has a witness knows for good that its number was handed out and used.

ghost use Rattle.std.specs.Prelude.{◌≡◌, ℕ, ◌+◌, ◌<◌};
ghost use Rattle.csp_tally.specs.Counts.{tally_owns, ticket_owns, witness_owns};

use std::marker::{Model, PhantomData};

/// Hands out numbers one after another, for contracts alone: `count` were handed out.
pub struct Tally {
    marker: PhantomData<()>,
    pub ghost name: { ℕ },
    pub ghost count: { ℕ },
}

impl Model for Tally {
    ghost also_owns = { λ t. tally_owns t.name t.count };
}

/// The right to use a number of a tally, once.
pub struct Ticket {
    marker: PhantomData<()>,
    pub ghost name: { ℕ },
    pub ghost number: { ℕ },
}

impl Model for Ticket {
    ghost also_owns = { λ t. ticket_owns t.name t.number };
}

/// That a number of a tally was used: a fact that lasts.
pub struct Witness {
    marker: PhantomData<()>,
    pub ghost name: { ℕ },
    pub ghost number: { ℕ },
}

impl Model for Witness {
    ghost also_owns = { λ w. witness_owns w.name w.number };
}

impl Tally {
    /// A new tally, which has handed out nothing.
    pub fn open() -> Tally
        ensures { result.count ≡ 0 }
    {
        Tally {
            marker: PhantomData,
        }
    }

    /// The next number.
    pub fn ticket(&mut self) -> Ticket
        ensures tally { (self.new.name ≡ self.old.name) × (self.new.count ≡ self.old.count + 1) }
        ensures ticket { (result.name ≡ self.old.name) × (result.number ≡ self.old.count) }
    {
        Ticket {
            marker: PhantomData,
        }
    }

    /// Takes back the number that was handed out last.
    pub fn take_back(&mut self, ticket: Ticket)
        requires { (ticket.name ≡ self.old.name) × (ticket.number + 1 ≡ self.old.count) }
        ensures { (self.new.name ≡ self.old.name) × (self.new.count ≡ ticket.number) }
    {
        ticket.returns_to(self);
    }

    /// A number that was used was handed out, and not taken back.
    pub fn knows(&mut self, witness: Witness)
        ensures tally { self.new ≡ self.old }
        ensures used { witness.name ≡ self.old.name → witness.number < self.old.count }
    {
        witness.is_known(self);
    }
}

impl Ticket {
    /// Uses it.
    pub fn used(self) -> Witness
        ensures { (result.name ≡ self.name) × (result.number ≡ self.number) }
    {
        let Self { marker: _ } = self;
        Witness {
            marker: PhantomData,
        }
    }

    // Taken apart here, since a value that implements `Drop` is so only by a method that takes `self`.
    fn returns_to(self, tally: &mut Tally)
        requires { (self.name ≡ tally.old.name) × (self.number + 1 ≡ tally.old.count) }
        ensures { (tally.new.name ≡ tally.old.name) × (tally.new.count ≡ self.number) }
    {
        let Self { marker: _ } = self;
    }
}

impl Witness {
    /// The same once more.
    pub fn again(&mut self) -> Witness
        ensures itself { self.new ≡ self.old }
        ensures copy { result ≡ self.old }
    {
        Witness {
            marker: PhantomData,
        }
    }

    fn is_known(self, tally: &mut Tally)
        ensures tally { tally.new ≡ tally.old }
        ensures used { self.name ≡ tally.old.name → self.number < tally.old.count }
    {
        let Self { marker: _ } = self;
    }
}

impl Drop for Tally {
    fn drop(self) {
        let Self { marker: _ } = self;
    }
}

impl Drop for Ticket {
    fn drop(self) {
        let Self { marker: _ } = self;
    }
}

impl Drop for Witness {
    fn drop(self) {
        let Self { marker: _ } = self;
    }
}

unsafe impl Send for Tally {}

unsafe impl Sync for Tally {}

unsafe impl Send for Ticket {}

unsafe impl Sync for Ticket {}

unsafe impl Send for Witness {}

unsafe impl Sync for Witness {}
