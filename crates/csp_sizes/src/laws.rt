//! What follows for the entry limit.

ghost use Rattle.std.specs.Prelude.{◌≢◌, ℕ, List, None};
ghost use Rattle.csp_gen.specs.GenScene.{gen_scene};
ghost use Rattle.csp_link.specs.declared.fault.Fault.{Fault};
ghost use Rattle.csp_world.specs.Record.{sim_record};

/// The run of a generated scene never reaches the entry limit: each of its entries weighs one.
pub fn stays_below()
    ensures { (packets : ℕ) (plan : List Fault) → sim_record (gen_scene packets plan) ≢ None }
{}
