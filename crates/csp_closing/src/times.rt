//! The rounds of a run.

ghost use Rattle.std.specs.Prelude.{◌≡◌};
ghost use Rattle.csp_closing.specs.Times.{AreOrdered, IsOrdered, rounds_among};
ghost use Rattle.csp_telling.specs.Closed.{rounds_in};

use csp_log::Log;
use csp_record::PartyLog;

/// One more than the greatest time in these logs, and 0 where they have no entry.
pub(crate) fn rounds_of(logs: &[PartyLog]) -> u64
    requires { AreOrdered logs.now }
    ensures { result ≡ rounds_among logs.now }
{
    match logs.split_first() {
        Some((party, rest)) => rounds_in(&party.log).max(rounds_of(rest)),
        None => 0,
    }
}

/// One more than the time of the last entry of a log, and 0 where it has none.
fn rounds_in(log: &Log) -> u64
    requires { IsOrdered log.now.entries }
    ensures { result ≡ rounds_in log.now.entries }
{
    let count = log.len();
    if count == 0 {
        0
    } else {
        log.entry(count - 1).time + 1
    }
}
