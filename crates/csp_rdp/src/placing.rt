//! A law of the machine, over its definitions: where its buffers lie changes nothing.

ghost use Rattle.std.specs.Prelude.{◌≡◌, ℕ, List, map, Option};
ghost use Rattle.std.specs.Option.{option_map};
ghost use Rattle.csp_arena.specs.Cells.{RegionName};
ghost use Rattle.csp_base.specs.declared.traces.Tag.{Tag};
ghost use Rattle.csp_buffer.specs.PlainBuffer.{PlainBuffer};
ghost use Rattle.csp_rdp.specs.Holding.{rdp_buffers, rdp_numbers, rested, taken_out, unneeded};
ghost use Rattle.csp_rdp.specs.Jobs.{admitting, closing, delivering, delivery, filled, job_of, keeping_again, sent, ticked, without_delivery};
ghost use Rattle.csp_rdp.specs.Machine.{PlainRdp};
ghost use Rattle.csp_rdp.specs.Placed.{placed, placed_buffer};
ghost use Rattle.csp_rdp.specs.Table.{back_of, after_packet, row_of};
ghost use Rattle.csp_rdp.specs.declared.jobs.Job.{Job};
ghost use Rattle.csp_rdp.specs.declared.rows.StateRow.{StateRow};
ghost use Rattle.csp_rdp_header.specs.declared.head.RdpHead.{RdpHead};
ghost use Rattle.csp_rdp_window.specs.Receiving.{is_kept};
ghost use Rattle.csp_rdp_window.specs.Sending.{is_full};

/// No step of a connection looks at the region of its buffers: after each step the machine with its buffers
/// in another region is as the step makes it of the machine with its buffers there.
pub fn sees_no_region()
    ensures row { (n : RegionName) (h : RdpHead) (bytes : List ℕ) (r : PlainRdp) → row_of (placed n r) h bytes ≡ row_of r h bytes }
    ensures back { (n : RegionName) (row : StateRow) (p : PlainBuffer) → back_of row (placed_buffer n p) ≡ option_map (placed_buffer n) (back_of row p) }
    ensures handed { (n : RegionName) (h : RdpHead) (tag : Option Tag) (p : PlainBuffer) (time : ℕ) (r : PlainRdp) → placed n (after_packet h tag p time r) ≡ after_packet h tag (placed_buffer n p) time (placed n r) }
    ensures admitted { (n : RegionName) (b : PlainBuffer) (time : ℕ) (r : PlainRdp) → placed n (admitting b time r) ≡ admitting (placed_buffer n b) time (placed n r) }
    ensures job { (n : RegionName) (time : ℕ) (r : PlainRdp) → job_of time (placed n r) ≡ job_of time r }
    ensures filled { (n : RegionName) (j : Job) (time : ℕ) (r : PlainRdp) (b : PlainBuffer) → filled j time (placed n r) b ≡ filled j time r b }
    ensures sent { (n : RegionName) (j : Job) (time : ℕ) (r : PlainRdp) → placed n (sent j time r) ≡ sent j time (placed n r) }
    ensures delivery { (n : RegionName) (r : PlainRdp) → delivery (placed n r) ≡ option_map (placed_buffer n) (delivery r) }
    ensures taken { (n : RegionName) (r : PlainRdp) → placed n (without_delivery r) ≡ without_delivery (placed n r) }
    ensures delivered { (n : RegionName) (time : ℕ) (r : PlainRdp) → placed n (delivering time r) ≡ delivering time (placed n r) }
    ensures kept_again { (n : RegionName) (b : PlainBuffer) (r : PlainRdp) → placed n (keeping_again b r) ≡ keeping_again (placed_buffer n b) (placed n r) }
    ensures ticked { (n : RegionName) (time : ℕ) (r : PlainRdp) → placed n (ticked time r) ≡ ticked time (placed n r) }
    ensures closed { (n : RegionName) (time : ℕ) (r : PlainRdp) → placed n (closing time r) ≡ closing time (placed n r) }
    ensures rested { (n : RegionName) (r : PlainRdp) → placed n (rested r) ≡ rested (placed n r) }
    ensures unneeded { (n : RegionName) (r : PlainRdp) → unneeded (placed n r) ≡ map (placed_buffer n) (unneeded r) }
    ensures taken_out { (n : RegionName) (r : PlainRdp) → placed n (taken_out r) ≡ taken_out (placed n r) }
    ensures buffers { (n : RegionName) (r : PlainRdp) → rdp_buffers (placed n r) ≡ map (placed_buffer n) (rdp_buffers r) }
    ensures numbers { (n : RegionName) (r : PlainRdp) → rdp_numbers (placed n r) ≡ rdp_numbers r }
    ensures full { (n : RegionName) (r : PlainRdp) → is_full (placed n r).send ≡ is_full r.send }
    ensures kept { (n : RegionName) (r : PlainRdp) (t : ℕ) → is_kept (placed n r).recv t ≡ is_kept r.recv t }
{}
