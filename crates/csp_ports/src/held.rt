//! The buffers that a node's ports hold.

ghost use Rattle.std.specs.Prelude.{◌≡◌, ◌<◌, ◌≤◌, length, [], ◌∷◌, MatchOption, IfSome, IsTrue, ◌↔◌};
ghost use Rattle.std.specs.List.{flat_map};
ghost use Rattle.csp_deck.specs.Keeping.{numbers_of};
ghost use Rattle.csp_deck.specs.Step.{times};
ghost use Rattle.csp_ports.specs.Held.{emptied, held, slot_buffers, without_held};
ghost use Rattle.csp_ports.specs.Keeps.{Keeps, at_hand};
ghost use Rattle.csp_ports.specs.PlainPorts.{with_ports_at};

use crate::ports::Ports;
use crate::terms::SlotState;
use csp_base::{ALL_SLOTS, MAX_APPS};
use csp_buffer::Buffer;
use csp_rdp_window::{RECEIVE_PLACES, SEND_PLACES};

/// The most buffers that they hold: those of all machines, and a packet that waits of each application.
pub const MAX_HELD: usize = 964;

const _: () = prove!(MAX_HELD == ALL_SLOTS * (SEND_PLACES + RECEIVE_PLACES) + MAX_APPS);

impl Ports {
    /// Whether they hold the buffer of this number.
    pub fn holds(&self, number: u16) -> bool
        ensures { IsTrue result ↔ (0 < times number (numbers_of (held self.now.ports))) }
    {
        self.slots.iter().any(|slot| slot.holds(number))
    }

    /// They hold `MAX_HELD` buffers at most.
    pub fn bounds(&self)
        ensures { length (held self.now.ports) ≤ MAX_HELD }
    {
        // Read for the checker alone, which then knows what is true of all ports.
        let _slots = &self.slots;
    }

    /// Takes out a buffer that they hold, as at the end of a run: the first of the first slot that holds one.
    /// `None` where they hold none.
    pub fn take_out(&mut self) -> Option<Buffer>
        ensures buffers { MatchOption result ((held self.old.ports ≡ []) × (self.new ≡ self.old)) (λ b. held self.old.ports ≡ b.picture ∷ held self.new.ports) }
        ensures ports { self.new ≡ with_ports_at self.old (emptied self.old.ports) }
        ensures of_it { IfSome result (λ b. b.region ≡ self.old.region) }
        ensures apps { self.new.ports.conns.apps ≡ self.old.ports.conns.apps }
        ensures keeps { MatchOption result (Keeps 0 (at_hand self.old.ports []) (at_hand self.new.ports []) []) (λ b. Keeps 0 (at_hand self.old.ports []) (at_hand self.new.ports (b.picture ∷ [])) []) }
    {
        take_held(&mut self.slots)
    }

    /// Ends ports that hold no buffer.
    pub fn end(self)
        requires { held self.ports ≡ [] }
    {
        let Ports {
            token: _,
            apps: _,
            conns: _,
            slots,
            sockets: _,
            owed: _,
            next: _,
            made: _,
        } = self;
        end_slots(slots);
    }
}

/// Takes out the first buffer that a slot holds.
fn take_held(slots: &mut [SlotState]) -> Option<Buffer>
    ensures buffers { MatchOption result ((flat_map slot_buffers slots.old ≡ []) × (slots.new ≡ slots.old)) (λ b. (flat_map slot_buffers slots.old ≡ b ∷ flat_map slot_buffers slots.new) × (slots.new ≡ without_held slots.old)) }
{
    for slot in slots.iter_mut() {
        if let Some(buffer) = slot.take_out() {
            return Some(buffer);
        }
    }
    None
}

/// Ends slots that hold no buffer.
fn end_slots(slots: Vec<SlotState>)
    requires { flat_map slot_buffers slots.items ≡ [] }
{
    let mut slots = slots;
    while let Some(slot) = slots.pop() {
        slot.end();
    }
    slots.destroy_empty();
}
