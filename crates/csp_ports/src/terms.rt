//! What a node keeps of a slot besides its connection.

ghost use Rattle.std.specs.Prelude.{◌≡◌, ◌<◌, [], ◌∷◌, MatchOption, map, nat_lt};
ghost use Rattle.csp_deck.specs.Step.{times};
ghost use Rattle.csp_ports.specs.Held.{handed_out, slot_buffers};
ghost use Rattle.csp_ports.specs.PlainPorts.{fresh, is_closing, machine_in, untouched};

use csp_base::Prio;
use csp_buffer::Buffer;
use csp_rdp::{Rdp, State};

/// What an application waits for at a slot.
#[derive(Clone, Copy)]
pub enum Wish {
    /// Nothing.
    Nothing,
    /// That the reliable connection is open that it asked for, or refused.
    Connection,
    /// That the reliable connection is closed whose end it asked for.
    End,
    /// The answer to its close, which is owed.
    Ended,
}

impl Wish {
    /// Whether the application has asked for the slot's end, and was not answered yet.
    pub fn is_closing(self) -> bool
        ensures { result ≡ is_closing self }
    {
        matches!(self, Wish::End | Wish::Ended)
    }
}

/// How the packets that a slot's connection sends are marked, and how far the slot has come.
#[derive(Clone, Copy)]
pub struct Terms {
    /// The priority of the packets.
    pub prio: Prio,
    /// Their flags.
    pub flags: u8,
    /// What the application waits for.
    pub wish: Wish,
    /// Whether a note is owed that the connection is not open any more.
    pub is_down: bool,
    /// How many ends of the slot were answered.
    pub ordinal: u32,
}

impl Terms {
    /// Those of a slot before its first connection.
    pub fn fresh() -> Terms
        ensures { result ≡ fresh }
    {
        Terms {
            prio: Prio::Normal,
            flags: 0,
            wish: Wish::Nothing,
            is_down: false,
            ordinal: 0,
        }
    }
}

/// What a node keeps of a slot besides its connection.
pub struct SlotState {
    /// How its packets are marked, and how far it has come.
    pub terms: Terms,
    /// The machine of its reliable connection, where it has one: a plain one, and a slot that is free, has none.
    pub machine: Option<Rdp>,
    /// The packet of its application that waits for room in the machine's window.
    pub stalled: Option<Buffer>,
}

impl SlotState {
    /// A slot before its first connection.
    pub(crate) fn untouched() -> SlotState
        ensures { result ≡ untouched }
    {
        SlotState {
            terms: Terms::fresh(),
            machine: None,
            stalled: None,
        }
    }

    /// The state of its reliable connection: without one it is closed.
    pub(crate) fn state(&self) -> State
        ensures { result ≡ (machine_in self.now).state }
    {
        match &self.machine {
            Some(machine) => machine.state(),
            None => State::Closed,
        }
    }

    /// Whether it holds the buffer of this number: the packet that waits, or one of its machine's.
    pub(crate) fn holds(&self, number: u16) -> bool
        ensures { result ≡ nat_lt 0 (times number (map (λ b. b.picture.number) (slot_buffers self.now))) }
    {
        if let Some(packet) = &self.stalled
            && packet.number() == number
        {
            return true;
        }
        match &self.machine {
            Some(machine) => machine.holds(number),
            None => false,
        }
    }

    /// Takes out the first buffer that it holds: the packet that waits, or else the machine's first.
    pub(crate) fn take_out(&mut self) -> Option<Buffer>
        ensures buffers { MatchOption result ((slot_buffers self.old ≡ []) × (self.new ≡ self.old)) (λ b. slot_buffers self.old ≡ b ∷ slot_buffers self.new) }
        ensures state { self.new ≡ handed_out self.old.stalled self.old }
    {
        if let Some(packet) = self.stalled.take() {
            return Some(packet);
        }
        match &mut self.machine {
            Some(machine) => machine.take_out(),
            None => None,
        }
    }

    /// Ends a slot that holds no buffer.
    pub(crate) fn end(self)
        requires { slot_buffers self ≡ [] }
    {
        let SlotState {
            terms: _,
            machine,
            stalled,
        } = self;
        if let Some(machine) = machine {
            machine.end();
        }
        if let Some(_packet) = stalled {
            unreachable!();
        }
    }
}
