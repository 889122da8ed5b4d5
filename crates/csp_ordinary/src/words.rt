//! The header words of the packets that a record shows to be sent.

ghost use Rattle.std.specs.List.{AllByRecursion};
ghost use Rattle.csp_log.specs.Headers.{IsWord};
ghost use Rattle.csp_ordinary.specs.Words.{HasWords, all_fetched};

use csp_log::Log;
use csp_record::Record;

/// The headers of all packets that a party fetched are words of 32 bits.
fn hold_fetched(log: &Log)
    ensures { AllByRecursion IsWord (all_fetched log.now.entries) }
{
    // Read for the checker alone, which then knows what a log shows.
    let _len = log.len();
}

/// The headers of all packets that a record shows to be fetched are words of 32 bits, as the fields are of which they are read. It changes nothing.
pub fn hold_words(run: &Record)
    ensures { HasWords run.now }
{
    for party in run.parties.iter() {
        hold_fetched(&party.log);
    }
}
