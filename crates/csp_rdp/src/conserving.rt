//! Laws of the machine, over its definitions: it neither loses nor doubles a buffer.

ghost use Rattle.std.specs.Prelude.{◌≡◌, ◌+◌, ◌++◌, ℕ, map, false, [], ◌∷◌, Option};
ghost use Rattle.csp_base.specs.declared.traces.Tag.{Tag};
ghost use Rattle.csp_buffer.specs.PlainBuffer.{PlainBuffer};
ghost use Rattle.csp_rdp.specs.Balance.{Balanced, IsWhole};
ghost use Rattle.csp_rdp.specs.Holding.{rdp_numbers, rested, taken_out, unneeded, unneeded_buffer, without_unneeded};
ghost use Rattle.csp_rdp.specs.Jobs.{admitting, closing, delivering, delivery, keeping_again, sent, ticked, without_delivery};
ghost use Rattle.csp_rdp.specs.Machine.{PlainRdp, accepting, connecting, idle};
ghost use Rattle.csp_rdp.specs.Table.{back_of, after_packet, row_of};
ghost use Rattle.csp_rdp.specs.declared.jobs.Job.{Job};
ghost use Rattle.csp_rdp_header.specs.declared.head.RdpHead.{RdpHead};
ghost use Rattle.csp_rdp_header.specs.declared.options.Options.{Options};
ghost use Rattle.csp_rdp_window.specs.Numbers.{number_in};
ghost use Rattle.csp_rdp_window.specs.Receiving.{is_kept};

use crate::State;

/// A new connection is whole, and a connection that is whole is so after each of its calls.
pub fn keeps_whole()
    ensures idle { IsWhole idle }
    ensures connecting { (start : ℕ) (options : Options) (node nth time : ℕ) → IsWhole (connecting start options node nth time) }
    ensures accepting { (start : ℕ) (options : Options) (other : ℕ) (tag : Option Tag) (node nth time : ℕ) → IsWhole (accepting start options other tag node nth time) }
    ensures handed { (h : RdpHead) (tag : Option Tag) (p : PlainBuffer) (time : ℕ) (r : PlainRdp) → IsWhole r → IsWhole (after_packet h tag p time r) }
    ensures admitted { (b : PlainBuffer) (time : ℕ) (r : PlainRdp) → IsWhole r → IsWhole (admitting b time r) }
    ensures sent { (j : Job) (time : ℕ) (r : PlainRdp) → IsWhole r → IsWhole (sent j time r) }
    ensures taken { (r : PlainRdp) → IsWhole r → IsWhole (without_delivery r) }

    // What was taken out is not kept any more, which the next two ask.
    ensures missing { (r : PlainRdp) → r.state ≡ State.Open → is_kept (without_delivery r).recv (r.recv.cur + 1) ≡ false }
    ensures delivered { (time : ℕ) (r : PlainRdp) → r.state ≡ State.Open → is_kept r.recv (r.recv.cur + 1) ≡ false → IsWhole r → IsWhole (delivering time r) }
    ensures kept_again { (b : PlainBuffer) (r : PlainRdp) → r.state ≡ State.Open → is_kept r.recv (r.recv.cur + 1) ≡ false → IsWhole r → IsWhole (keeping_again b r) }
    ensures ticked { (time : ℕ) (r : PlainRdp) → IsWhole r → IsWhole (ticked time r) }
    ensures closed { (time : ℕ) (r : PlainRdp) → IsWhole r → IsWhole (closing time r) }
    ensures drained { (r : PlainRdp) → IsWhole r → IsWhole (without_unneeded r) }
    ensures rested { (r : PlainRdp) → IsWhole r → IsWhole (rested r) }
    ensures taken_out { (r : PlainRdp) → IsWhole r → IsWhole (taken_out r) }
{}

/// After each call the buffers of a connection and those that it hands back or out are those that it had
/// and the one that it was handed.
pub fn conserves()
    ensures handed { (h : RdpHead) (tag : Option Tag) (p : PlainBuffer) (time : ℕ) (r : PlainRdp) → IsWhole r
        → Balanced (rdp_numbers (after_packet h tag p time r) ++ number_in (back_of (row_of r h p.picture.payload) p)) (rdp_numbers r ++ p.picture.number ∷ []) }
    ensures admitted { (b : PlainBuffer) (time : ℕ) (r : PlainRdp) → Balanced (rdp_numbers (admitting b time r)) (rdp_numbers r ++ b.picture.number ∷ []) }
    ensures sent { (j : Job) (time : ℕ) (r : PlainRdp) → rdp_numbers (sent j time r) ≡ rdp_numbers r }
    ensures taken { (r : PlainRdp) → IsWhole r → Balanced (rdp_numbers (without_delivery r) ++ number_in (delivery r)) (rdp_numbers r) }
    ensures delivered { (time : ℕ) (r : PlainRdp) → rdp_numbers (delivering time r) ≡ rdp_numbers r }
    ensures kept_again { (b : PlainBuffer) (r : PlainRdp) → Balanced (rdp_numbers (keeping_again b r)) (rdp_numbers r ++ b.picture.number ∷ []) }
    ensures ticked { (time : ℕ) (r : PlainRdp) → rdp_numbers (ticked time r) ≡ rdp_numbers r }
    ensures closed { (time : ℕ) (r : PlainRdp) → rdp_numbers (closing time r) ≡ rdp_numbers r }
    ensures drained { (r : PlainRdp) → Balanced (rdp_numbers (without_unneeded r) ++ number_in (unneeded_buffer r)) (rdp_numbers r) }
    ensures parted { (r : PlainRdp) → Balanced (map (λ b. b.picture.number) (unneeded r) ++ rdp_numbers (rested r)) (rdp_numbers r) }
{}
