//! Whether the timers have anything to do.

ghost use Rattle.std.specs.Prelude.{◌≡◌, [], ◌*◌, ◌<◌, IsTrue};
ghost use Rattle.std.specs.List.{All};
ghost use Rattle.csp_ports.specs.Came.{come};
ghost use Rattle.csp_ports.specs.PlainPorts.{machines_of};
ghost use Rattle.csp_ports.specs.Quiet.{any_due, is_due, is_quiet, is_stranded, times_out_at};
ghost use Rattle.csp_ports.specs.Steps.{timed};
ghost use Rattle.csp_rdp.specs.Holding.{unneeded};

use crate::ports::Ports;
use csp_base::ALL_SLOTS;
use csp_rdp::State;

impl Ports {
    /// Whether the timers have nothing to do: no timer would change its connection, and no packet waits for
    /// a connection that is not open. Trying them then changes nothing.
    pub fn is_quiet(&self, now: u64) -> bool
        ensures value { result ≡ is_quiet now self.now.ports }
        ensures still { IsTrue result → timed now self.now.ports ≡ come self.now.ports }
    {
        self.rest();
        !self.any_due(now)
    }

    /// Each machine holds what it needs alone.
    fn rest(&self)
        ensures { All (λ r. unneeded r ≡ []) (machines_of self.now.ports) }
    {
        // Read for the checker alone, which then knows what is true of all ports.
        let _slots = &self.slots;
    }

    /// Whether some slot has something to do for the timers.
    fn any_due(&self, now: u64) -> bool
        ensures { result ≡ any_due now self.now.ports }
    {
        for at in 0..self.slot_count() {
            if self.is_due(at, now) {
                return true;
            }
        }
        false
    }

    /// Whether the slot at a place has: its timer would change its connection, or its packet waits for one
    /// that is not open.
    fn is_due(&self, at: usize, now: u64) -> bool
        requires { at < ALL_SLOTS }
        ensures { result ≡ is_due now self.now.ports at }
    {
        self.times_out_at(at, now) || self.is_stranded(at)
    }

    /// Whether the timer of the slot at a place would change its connection.
    fn times_out_at(&self, at: usize, now: u64) -> bool
        requires { at < ALL_SLOTS }
        ensures { result ≡ times_out_at now self.now.ports at }
    {
        match &self.slots[at].machine {
            Some(machine) => machine.times_out(now),
            None => false,
        }
    }

    /// Whether the packet of the slot at a place waits for a connection that is not open.
    fn is_stranded(&self, at: usize) -> bool
        requires { at < ALL_SLOTS }
        ensures { result ≡ is_stranded self.now.ports at }
    {
        let slot = &self.slots[at];
        slot.stalled.is_some() && slot.state() != State::Open
    }
}
