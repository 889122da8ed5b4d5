//! What the reliable connections of a node owe, and what comes of it.

ghost use Rattle.std.specs.Prelude.{◌≡◌, ◌≢◌, ◌+◌, ◌-◌, ◌*◌, ◌^◌, ◌<◌, ◌≤◌, ◌++◌, ℕ, false, [], ◌∷◌, find, length, None, Some, IfSome};
ghost use Rattle.std.specs.List.{range_with_len};
ghost use Rattle.std.specs.Option.{option_map};
ghost use Rattle.csp_buffer.specs.PlainBuffer.{with_picture};
ghost use Rattle.csp_conn.specs.PlainConns.{IsThere, seat_of};
ghost use Rattle.csp_deck.specs.Keeping.{with_contents};
ghost use Rattle.csp_deck.specs.Regions.{nowhere};
ghost use Rattle.csp_rdp.specs.Placed.{placed, placed_buffer};
ghost use Rattle.csp_ports.specs.Came.{Comes, at_work, pictures};
ghost use Rattle.csp_ports.specs.Counts.{IsCountable};
ghost use Rattle.csp_ports.specs.Keeps.{IsOwedBy, Keeps, at_hand};
ghost use Rattle.csp_ports.specs.Kept.{IsHoused, IsRoomy};
ghost use Rattle.csp_ports.specs.PlainPorts.{anywhere, machine_at, state_at, terms_at, with_ports_at};
ghost use Rattle.csp_ports.specs.Tasks.{delivered, has_task, kept_again, made_in, making, next_task, place_with_task, task_at, told_down, turned, without_packet};
ghost use Rattle.csp_rdp.specs.Counts.{IsFar};
ghost use Rattle.csp_rdp.specs.Changes.{change_between};
ghost use Rattle.csp_rdp.specs.Holding.{rdp_numbers, rested, unneeded};
ghost use Rattle.csp_rdp.specs.Jobs.{delivering, delivery, job_of};
ghost use Rattle.csp_rdp.specs.declared.answers.Cause.TheVariants as machine_why;
ghost use Rattle.csp_rdp_window.specs.Receiving.{is_kept};

use crate::ports::Ports;
use crate::steps::let_go;
use crate::task::{Task, task_by};
use csp_base::{ALL_SLOTS, MAX_PAYLOAD, SLOTS, Seat};
use csp_buffer::Buffer;
use csp_conn::place;
use csp_deck::{Events, Pile};
use csp_rdp::{
    Change, Job, Rdp, State, conserves, keeps_region, keeps_rest, keeps_whole, sees_no_region,
};

impl Ports {
    /// How many slots the node's applications have.
    pub(crate) fn slot_count(&self) -> usize
        ensures value { result ≡ self.now.ports.conns.apps * SLOTS }
        ensures few { result ≤ ALL_SLOTS }
    {
        usize::from(self.apps) * SLOTS
    }

    /// The first task of a slot.
    pub fn task(&self, seat: Seat, now: u64) -> Option<Task>
        requires there { IsThere self.now.ports.conns seat }
        ensures { result ≡ task_at now self.now.ports seat }
    {
        sees_no_region();
        let job = match self.machine(seat) {
            Some(machine) => machine.job(now),
            None => None,
        };
        task_by(self.terms(seat).is_down, job)
    }

    /// The seat at a place.
    pub(crate) fn seat_at(&self, at: usize) -> Seat
        requires inside { at < self.now.ports.conns.apps * SLOTS }
        ensures value { result ≡ seat_of at }
        ensures there { IsThere self.now.ports.conns result }
    {
        // That no place is past the last is a clause of this reading.
        let _count = self.slot_count();
        Seat {
            app: (at / SLOTS) as u8,
            slot: (at % SLOTS) as u8,
        }
    }

    /// The first seat with a task, in their circle, and the task.
    pub fn next_task(&self, now: u64) -> Option<(Seat, Task)>
        ensures value { result ≡ next_task now self.now.ports }
        ensures there { IfSome result (λ t. IsThere self.now.ports.conns t.0) }
        ensures owed { IfSome result (λ t. IsOwedBy t.1 now t.0 self.now.ports) }
    {
        let at = self.find_place(now)?;
        let seat = self.seat_at(at);
        let task = self.task(seat, now)?;
        Some((seat, task))
    }

    /// The place of the first slot with a task, in their circle.
    fn find_place(&self, now: u64) -> Option<usize>
        ensures place { result ≡ place_with_task now self.now.ports }
        ensures inside { IfSome result (λ at. at < self.now.ports.conns.apps * SLOTS) }
    {
        let count = self.slot_count();
        match self.find_between(self.next, count, now) {
            Some(at) => Some(at),
            None => self.find_between(0, self.next.min(count), now),
        }
    }

    /// The first place with a task from one place on, before another.
    fn find_between(&self, first: usize, end: usize, now: u64) -> Option<usize>
        requires inside { end ≤ self.now.ports.conns.apps * SLOTS }
        ensures place { result ≡ find (has_task now self.now.ports) (range_with_len first (end - first)) }
        ensures inside { IfSome result (λ at. at < end) }
    {
        for at in first..end {
            if self.owes(at, now) {
                return Some(at);
            }
        }
        None
    }

    /// Whether the slot at a place has a task.
    fn owes(&self, at: usize, now: u64) -> bool
        requires inside { at < self.now.ports.conns.apps * SLOTS }
        ensures { result ≡ has_task now self.now.ports at }
    {
        sees_no_region();
        self.is_down_at(at)
            || match self.machine_of(at) {
                Some(machine) => machine.owes(now),
                None => false,
            }
    }

    /// Whether a Down note is owed of the slot at a place.
    fn is_down_at(&self, at: usize) -> bool
        requires inside { at < self.now.ports.conns.apps * SLOTS }
        ensures { result ≡ (terms_at self.now.ports (seat_of at)).is_down }
    {
        self.slots[at].terms.is_down
    }

    /// The machine of the slot at a place, where the slot has one.
    fn machine_of(&self, at: usize) -> Option<&Rdp>
        requires inside { at < self.now.ports.conns.apps * SLOTS }
        ensures { option_map (λ r. placed nowhere r.now) result ≡ (state_at self.now.ports (seat_of at)).machine }
    {
        self.slots[at].machine.as_ref()
    }

    /// A slot comes to its task: the next look begins past it.
    pub fn turn(&mut self, seat: Seat)
        requires there { IsThere self.old.ports.conns seat }
        ensures ports { self.new ≡ with_ports_at self.old (turned seat self.old.ports) }
        ensures apps { self.new.ports.conns.apps ≡ self.old.ports.conns.apps }
        ensures keeps { Keeps 0 (at_hand self.old.ports []) (at_hand self.new.ports []) [] }
    {
        let count = self.slot_count();
        let next = place(seat) + 1;
        self.next = if next == count { 0 } else { next };
    }

    /// The Down note of a slot is pushed.
    pub fn tell_down(&mut self, seat: Seat)
        requires there { IsThere self.old.ports.conns seat }
        ensures ports { self.new ≡ with_ports_at self.old (told_down seat self.old.ports) }
        ensures apps { self.new.ports.conns.apps ≡ self.old.ports.conns.apps }
        ensures keeps { Keeps 0 (at_hand self.old.ports []) (at_hand self.new.ports []) [] }
    {
        let mut terms = self.terms(seat);
        terms.is_down = false;
        self.set_terms(seat, terms);
    }

    /// Takes out the packet that a slot's connection is to deliver.
    pub fn take_packet(&mut self, seat: Seat) -> Buffer
        requires there { IsThere self.old.ports.conns seat }
        requires owed { IsOwedBy Task.Deliver 0 seat self.old.ports }
        ensures packet { delivery (machine_at self.old.ports seat) ≡ Some (anywhere result.picture) }
        ensures ports { self.new ≡ with_ports_at self.old (without_packet seat self.old.ports) }
        ensures of_it { result.region ≡ self.old.region }
        ensures open { (machine_at self.new.ports seat).state ≡ State.Open }
        ensures taken { is_kept (machine_at self.new.ports seat).recv ((machine_at self.new.ports seat).recv.cur + 1) ≡ false }
        ensures apps { self.new.ports.conns.apps ≡ self.old.ports.conns.apps }
        ensures keeps { Keeps 0 (at_hand self.old.ports []) (at_hand self.new.ports (result.picture ∷ [])) [] }
    {
        sees_no_region();
        keeps_region();
        keeps_whole();
        keeps_rest();
        conserves();
        let Some(machine) = &mut self.slots[place(seat)].machine else {
            unreachable!();
        };
        match machine.deliver() {
            Some(packet) => packet,
            None => unreachable!(),
        }
    }

    /// The packet that was taken out is delivered.
    pub fn deliver(&mut self, seat: Seat, now: u64, trash: &mut Pile, report: &mut Events)
        requires there { IsThere self.old.ports.conns seat }
        requires open { (machine_at self.old.ports seat).state ≡ State.Open }
        requires taken { is_kept (machine_at self.old.ports seat).recv ((machine_at self.old.ports seat).recv.cur + 1) ≡ false }
        requires countable { IsCountable self.old.ports }
        requires roomy { IsRoomy 0 self.old trash.old }
        requires report { report.old.items ≡ [] }
        ensures comes { Comes (at_work self.old trash.old report.old.items) (at_work self.new trash.new report.new.items) (delivered now seat self.old.ports) }
        ensures apps { self.new.ports.conns.apps ≡ self.old.ports.conns.apps }
        ensures keeps { Keeps 1 (at_hand self.old.ports trash.old.contents) (at_hand self.new.ports trash.new.contents) [] }
    {
        sees_no_region();
        let Some(machine) = &mut self.slots[place(seat)].machine else {
            unreachable!();
        };
        let change = deliver(machine, now, trash);
        self.change(change, seat, trash, report);
        self.drop_stalled(seat, trash, report);
    }

    /// The packet that was taken out could not be delivered: it is kept again.
    pub fn keep_packet(&mut self, seat: Seat, packet: Buffer)
        requires there { IsThere self.old.ports.conns seat }
        requires of_it { packet.region ≡ self.old.region }
        requires open { (machine_at self.old.ports seat).state ≡ State.Open }
        requires taken { is_kept (machine_at self.old.ports seat).recv ((machine_at self.old.ports seat).recv.cur + 1) ≡ false }
        ensures ports { self.new ≡ with_ports_at self.old (kept_again seat packet.picture self.old.ports) }
        ensures apps { self.new.ports.conns.apps ≡ self.old.ports.conns.apps }
        ensures keeps { Keeps 0 (at_hand self.old.ports []) (at_hand self.new.ports []) (packet.picture.number ∷ []) }
    {
        sees_no_region();
        keeps_region();
        keeps_whole();
        keeps_rest();
        let Some(machine) = &mut self.slots[place(seat)].machine else {
            unreachable!();
        };
        machine.put_back(packet);
        // That it holds no more than its windows have places is a clause of this reading.
        let _state = machine.state();
    }

    /// Fills a cleared buffer with the packet that a slot's connection owes first.
    pub fn make(&mut self, seat: Seat, job: Job, packet: &mut Buffer, now: u64)
        requires there { IsThere self.old.ports.conns seat }
        requires of_it { packet.old.region ≡ self.old.region }
        requires owed { job_of now (machine_at self.old.ports seat) ≡ Some job }
        requires sent { job ≢ Job.Deliver }
        requires cleared { packet.old.picture.payload ≡ [] }
        ensures packet { packet.new ≡ with_picture packet.old (made_in job now seat packet.old.picture self.old.ports) }
        ensures ports { self.new ≡ with_ports_at self.old (making job now seat self.old.ports) }
        ensures short { length packet.new.picture.payload ≤ MAX_PAYLOAD - 4 }
        ensures number { packet.new.picture.number ≡ packet.old.picture.number }
        ensures region { packet.new.region ≡ packet.old.region }
        ensures apps { self.new.ports.conns.apps ≡ self.old.ports.conns.apps }
        ensures keeps { Keeps 0 (at_hand self.old.ports []) (at_hand self.new.ports []) [] }
    {
        sees_no_region();
        keeps_region();
        keeps_whole();
        keeps_rest();
        let Some(machine) = &mut self.slots[place(seat)].machine else {
            unreachable!();
        };
        machine.fill(job, packet, now);
    }
}

/// A packet of a machine is delivered. What the machine does not need any more joins the trash.
fn deliver(machine: &mut Rdp, now: u64, trash: &mut Pile) -> Change
    requires housed { IsHoused trash.old.region machine.old }
    requires open { machine.old.state ≡ State.Open }
    requires taken { is_kept machine.old.recv (machine.old.recv.cur + 1) ≡ false }
    requires countable { IsFar (2 ^ 32 - 2) machine.old }
    requires room { length trash.old.contents + length (rdp_numbers machine.old) ≤ trash.old.room }
    ensures machine { placed nowhere machine.new ≡ rested (delivering now (placed nowhere machine.old)) }
    ensures housed { IsHoused trash.old.region machine.new }
    ensures trash { trash.new ≡ with_contents trash.old (trash.old.contents ++ pictures (unneeded (delivering now (placed nowhere machine.old)))) }
    ensures size { length trash.new.contents + length (rdp_numbers machine.new) ≡ length trash.old.contents + length (rdp_numbers machine.old) }
    ensures change { result ≡ change_between machine.old.state (delivering now (placed nowhere machine.old)).state machine_why.Reset }
{
    sees_no_region();
    keeps_region();
    keeps_whole();
    conserves();
    let change = machine.delivered(now);
    let_go(machine, trash);
    change
}
