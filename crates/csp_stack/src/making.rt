//! The making of the packets that the machines of connections owe.

ghost use Rattle.std.specs.Prelude.{◌≡◌, ◌≢◌, ◌∷◌, [], Some, length};
ghost use Rattle.csp_conn.specs.PlainConns.{IsThere, slot_at};
ghost use Rattle.csp_deck.specs.Step.{IsCleared};
ghost use Rattle.csp_ports.specs.PlainPorts.{machine_at};
ghost use Rattle.csp_rdp.specs.Jobs.{job_of};
ghost use Rattle.csp_stack.specs.Comes.{ComesTo, IsServing};
ghost use Rattle.csp_stack.specs.Keeps.{Keeps};
ghost use Rattle.csp_stack.specs.Party.{IsSendable};
ghost use Rattle.csp_stack.specs.Router.{router};
ghost use Rattle.csp_stack.specs.Rules.{made_on};

use crate::facts::Facts;
use crate::sending::{addressed, send};
use crate::state::State;
use csp_base::Seat;
use csp_buffer::Buffer;
use csp_conn::{Connection, Slot};
use csp_deck::Events;
use csp_rdp::Job;

/// Makes the packet that a slot's connection owes in a cleared buffer, and sends it.
pub fn make(
    facts: &Facts,
    state: &mut State,
    now: u64,
    seat: Seat,
    job: Job,
    buffer: Buffer,
    report: &mut Events,
)
    requires sound { IsServing facts.now state.old.state }
    requires unwritten { report.old.items ≡ [] }
    requires there { IsThere state.old.state.ports.conns seat }
    requires of_it { buffer.region ≡ state.old.region }
    requires owed { job_of now (machine_at state.old.state.ports seat) ≡ Some job }
    requires sent { job ≢ Job.Deliver }
    requires cleared { IsCleared buffer.picture }
    ensures told { ComesTo state.old state.new report.old.items report.new.items (made_on (slot_at state.old.state.ports.conns seat) (seat, job) (router facts.now state.old.state) now buffer.picture) }
    ensures sendable { IsSendable facts.now state.new.state.out }
    ensures keeps { Keeps (length facts.now.ifaces) state.old.state state.new.state (buffer.picture.number ∷ []) }
{
    match state.ports.slot(seat) {
        Slot::Free | Slot::Held => state.absorb(buffer),
        Slot::Open(connection) => {
            fill(facts, state, now, seat, job, connection, buffer, report);
        }
    }
}

/// Fills a buffer with the packet that a slot's connection owes, and sends it.
fn fill(
    facts: &Facts,
    state: &mut State,
    now: u64,
    seat: Seat,
    job: Job,
    connection: Connection,
    mut buffer: Buffer,
    report: &mut Events,
)
    requires sound { IsServing facts.now state.old.state }
    requires unwritten { report.old.items ≡ [] }
    requires there { IsThere state.old.state.ports.conns seat }
    requires of_it { buffer.region ≡ state.old.region }
    requires owed { job_of now (machine_at state.old.state.ports seat) ≡ Some job }
    requires sent { job ≢ Job.Deliver }
    requires cleared { IsCleared buffer.picture }
    ensures told { ComesTo state.old state.new report.old.items report.new.items (made_on (Slot.Open connection) (seat, job) (router facts.now state.old.state) now buffer.picture) }
    ensures sendable { IsSendable facts.now state.new.state.out }
    ensures keeps { Keeps (length facts.now.ifaces) state.old.state state.new.state (buffer.picture.number ∷ []) }
{
    let terms = state.ports.terms(seat);
    state.ports.make(seat, job, &mut buffer, now);
    send(
        facts,
        state,
        addressed(facts, connection, terms, buffer),
        report,
    );
}
