//! Laws of the machine, over its definitions.

ghost use Rattle.std.specs.Prelude.{◌≡◌, ◌+◌, ◌≤◌, ℕ, map, [], Option, None};
ghost use Rattle.csp_arena.specs.Cells.{RegionName};
ghost use Rattle.csp_base.specs.declared.traces.Tag.{Tag};
ghost use Rattle.csp_buffer.specs.PlainBuffer.{PlainBuffer};
ghost use Rattle.csp_rdp.specs.Counts.{IsFar};
ghost use Rattle.csp_rdp.specs.Holding.{rdp_buffers, rdp_numbers, rested, taken_out, unneeded, unneeded_buffer, without_unneeded};
ghost use Rattle.csp_rdp.specs.Jobs.{admitting, closing, delivering, delivery, keeping_again, sent, ticked, without_delivery};
ghost use Rattle.csp_rdp.specs.Machine.{PlainRdp, accepting, connecting, idle};
ghost use Rattle.csp_rdp.specs.Regions.{AreAllIn, AreIn, IsIn};
ghost use Rattle.csp_rdp.specs.Table.{back_of, after_packet, row_of};
ghost use Rattle.csp_rdp.specs.declared.jobs.Job.{Job};
ghost use Rattle.csp_rdp_header.specs.declared.head.RdpHead.{RdpHead};
ghost use Rattle.csp_rdp_header.specs.declared.options.Options.{Options};
ghost use Rattle.csp_rdp_window.specs.Numbers.{times};
ghost use Rattle.csp_rdp_window.specs.Sending.{loose_buffer};

use crate::State;

/// Where the buffers of a connection are all of one region, and so is a buffer that is handed to it, then
/// they are after each of its calls, and what it hands out is.
pub fn keeps_region()
    ensures handed { (name : RegionName) (h : RdpHead) (tag : Option Tag) (p : PlainBuffer) (time : ℕ) (r : PlainRdp)
        → AreAllIn name r → p.region ≡ name → AreAllIn name (after_packet h tag p time r) }
    ensures admitted { (name : RegionName) (b : PlainBuffer) (time : ℕ) (r : PlainRdp)
        → AreAllIn name r → b.region ≡ name → AreAllIn name (admitting b time r) }
    ensures sent { (name : RegionName) (j : Job) (time : ℕ) (r : PlainRdp) → AreAllIn name r → AreAllIn name (sent j time r) }
    ensures taken { (name : RegionName) (r : PlainRdp) → AreAllIn name r → AreAllIn name (without_delivery r) × IsIn name (delivery r) }
    ensures delivered { (name : RegionName) (time : ℕ) (r : PlainRdp) → AreAllIn name r → AreAllIn name (delivering time r) }
    ensures kept_again { (name : RegionName) (b : PlainBuffer) (r : PlainRdp) → AreAllIn name r → b.region ≡ name → AreAllIn name (keeping_again b r) }
    ensures ticked { (name : RegionName) (time : ℕ) (r : PlainRdp) → AreAllIn name r → AreAllIn name (ticked time r) }
    ensures closed { (name : RegionName) (time : ℕ) (r : PlainRdp) → AreAllIn name r → AreAllIn name (closing time r) }
    ensures drained { (name : RegionName) (r : PlainRdp) → AreAllIn name r → AreAllIn name (without_unneeded r) × IsIn name (unneeded_buffer r) }
    ensures rested { (name : RegionName) (r : PlainRdp) → AreAllIn name r → AreAllIn name (rested r) × AreIn name (unneeded r) }
    ensures taken_out { (name : RegionName) (r : PlainRdp) → AreAllIn name r → AreAllIn name (taken_out r) }
    ensures all { (name : RegionName) (r : PlainRdp) → AreAllIn name r → AreIn name (rdp_buffers r) }
    ensures idle { (name : RegionName) → AreAllIn name idle }
    ensures connecting { (name : RegionName) (start : ℕ) (options : Options) (node nth time : ℕ) → AreAllIn name (connecting start options node nth time) }
    ensures accepting { (name : RegionName) (start : ℕ) (options : Options) (other : ℕ) (tag : Option Tag) (node nth time : ℕ)
        → AreAllIn name (accepting start options other tag node nth time) }
{}

/// After n admissions and deliveries together no more than n packets were admitted, and no more delivered.
pub fn keeps_count()
    ensures handed { (n : ℕ) (h : RdpHead) (tag : Option Tag) (p : PlainBuffer) (time : ℕ) (r : PlainRdp) → IsFar n r → IsFar n (after_packet h tag p time r) }
    ensures admitted { (n : ℕ) (b : PlainBuffer) (time : ℕ) (r : PlainRdp) → IsFar n r → IsFar (n + 1) (admitting b time r) }
    ensures sent { (n : ℕ) (j : Job) (time : ℕ) (r : PlainRdp) → IsFar n r → IsFar n (sent j time r) }
    ensures taken { (n : ℕ) (r : PlainRdp) → IsFar n r → IsFar n (without_delivery r) }
    ensures delivered { (n time : ℕ) (r : PlainRdp) → IsFar n r → IsFar (n + 1) (delivering time r) }
    ensures kept_again { (n : ℕ) (b : PlainBuffer) (r : PlainRdp) → IsFar n r → IsFar n (keeping_again b r) }
    ensures ticked { (n time : ℕ) (r : PlainRdp) → IsFar n r → IsFar n (ticked time r) }
    ensures closed { (n time : ℕ) (r : PlainRdp) → IsFar n r → IsFar n (closing time r) }
    ensures rested { (n : ℕ) (r : PlainRdp) → IsFar n r → IsFar n (rested r) }
    ensures taken_out { (n : ℕ) (r : PlainRdp) → IsFar n r → IsFar n (taken_out r) }
    ensures idle { IsFar 0 idle }
    ensures connecting { (start : ℕ) (options : Options) (node nth time : ℕ) → IsFar 0 (connecting start options node nth time) }
    ensures accepting { (start : ℕ) (options : Options) (other : ℕ) (tag : Option Tag) (node nth time : ℕ) → IsFar 0 (accepting start options other tag node nth time) }
    ensures later { (m n : ℕ) (r : PlainRdp) → m ≤ n → IsFar m r → IsFar n r }
{}

/// A connection that holds nothing without need goes on so while packets are sent, taken out for delivery,
/// kept again and admitted.
pub fn keeps_rest()
    ensures rested { (r : PlainRdp) → unneeded (rested r) ≡ [] }
    ensures again { (r : PlainRdp) → rested (rested r) ≡ rested r }
    ensures still { (r : PlainRdp) → unneeded r ≡ [] → rested r ≡ r }
    ensures loose { (r : PlainRdp) → unneeded r ≡ [] → loose_buffer r.send ≡ None }
    ensures admitted { (b : PlainBuffer) (time : ℕ) (r : PlainRdp) → unneeded r ≡ [] → unneeded (admitting b time r) ≡ [] }
    ensures sent { (j : Job) (time : ℕ) (r : PlainRdp) → unneeded r ≡ [] → unneeded (sent j time r) ≡ [] }
    ensures taken { (r : PlainRdp) → unneeded r ≡ [] → unneeded (without_delivery r) ≡ [] }
    ensures kept_again { (b : PlainBuffer) (r : PlainRdp) → r.state ≡ State.Open → unneeded r ≡ [] → unneeded (keeping_again b r) ≡ [] }
    ensures idle { unneeded idle ≡ [] }
    ensures connecting { (start : ℕ) (options : Options) (node nth time : ℕ) → unneeded (connecting start options node nth time) ≡ [] }
    ensures accepting { (start : ℕ) (options : Options) (other : ℕ) (tag : Option Tag) (node nth time : ℕ) → unneeded (accepting start options other tag node nth time) ≡ [] }
{}

/// What a connection does not need, and what is left without it, are all that it holds.
pub fn numbers()
    ensures parted { (k : ℕ) (r : PlainRdp) → times k (map (λ b. b.picture.number) (unneeded r)) + times k (rdp_numbers (rested r)) ≡ times k (rdp_numbers r) }
    ensures buffers { (r : PlainRdp) → rdp_numbers r ≡ map (λ b. b.picture.number) (rdp_buffers r) }
{}
