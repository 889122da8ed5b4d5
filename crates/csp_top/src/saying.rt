//! What the program says on standard error.

ghost use Rattle.std.specs.Prelude.{◌≡◌, OnOk, OnErr, IsErr};
ghost use Rattle.std.specs.Io.KnownBytes.{Appends};
ghost use Rattle.csp_base.specs.Faults.{Rose};
ghost use Rattle.csp_base.specs.Transfer.{WrotePrefix};
ghost use Rattle.csp_top.specs.Said.{said_of};

use csp_base::{Failed, Sink};
use csp_bench::Status;

/// Says why a run was not done, in one line, and nothing where it was done. No memory is taken.
pub fn say<E: Sink>(status: Status, errors: &mut E) -> Result<(), Failed>
    ensures whole { OnOk result (Appends (E.written errors.old) (E.written errors.new) (said_of status)) }
    ensures part { OnErr result (WrotePrefix (E.written errors.old) (E.written errors.new) (said_of status)) }
    ensures fault { IsErr result → Rose (E.faults errors.old) (E.faults errors.new) }
    ensures steady { OnOk result (E.faults errors.new ≡ E.faults errors.old) }
{
    csp_bench::say("cspsim", status, errors)
}
