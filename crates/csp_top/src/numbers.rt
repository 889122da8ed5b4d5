//! How far the numbers of the connections go of which a record tells.

ghost use Rattle.std.specs.List.{AllByRecursion};
ghost use Rattle.csp_top.specs.Prefix.{OpensNumbered, TellsNumbered};

use csp_log::Event;
use csp_record::Record;

/// The numbers of a connection that this event tells to be open are of 32 bits.
fn hold_event(event: Event)
    ensures { OpensNumbered event }
{
    let _event = event;
}

/// So are those of all that these events tell.
fn hold_events(events: &[Event])
    ensures { AllByRecursion OpensNumbered events.now }
{
    for event in events {
        hold_event(*event);
    }
}

/// The numbers of the connections of which a record tells are of 32 bits, as the fields of its events are. It changes nothing.
pub(crate) fn hold_numbers(run: &Record)
    ensures { AllByRecursion TellsNumbered run.now.parties }
{
    for party in run.parties.iter() {
        hold_events(party.log.all_events());
    }
}
