//! The parties of a record that a report speaks of.

ghost use Rattle.std.specs.Prelude.{◌≡◌};
ghost use Rattle.std.specs.Option.{option_map};
ghost use Rattle.csp_report.specs.Parties.{party_at, events_at};

use csp_log::Event;
use csp_record::{PartyLog, Who};

/// The first of these parties that has this name.
pub(crate) fn party_at(parties: &[PartyLog], who: Who) -> Option<&PartyLog>
    ensures { option_map (λ party. party.now) result ≡ party_at parties.now who }
{
    parties.iter().find(|party| party.who == who)
}

/// What that party reported, in order of time.
pub(crate) fn events_at(parties: &[PartyLog], who: Who) -> &[Event]
    ensures { result.now ≡ events_at parties.now who }
{
    match party_at(parties, who) {
        Some(party) => party.log.all_events(),
        None => &[],
    }
}
