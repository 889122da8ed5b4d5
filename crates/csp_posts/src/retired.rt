//! A party of a threaded run that takes no turn any more.

ghost use Rattle.std.specs.Prelude.{◌≡◌, [], vec_capacity};
ghost use Rattle.csp_ends.specs.Ends as hands;
ghost use Rattle.csp_party.specs.Any.{plain, region_of};

use crate::Post;
use csp_deck::Log;
use csp_ends::Ends;
use csp_party::AnyParty;
use csp_record::Who;

/// A party of a threaded run that takes no turn any more, and what it has in hand. It must be spent: whoever ends the run
/// takes back what it holds.
pub struct Retired {
    /// Which it is.
    pub who: Who,
    /// The party itself.
    pub party: AnyParty,
    /// Its turns.
    pub log: Log,
    /// Its ends of the queues, until they are taken out.
    pub ends: Ends,
    /// Room for the numbers of the buffers that it holds.
    pub numbers: Vec<u16>,
}

impl Post {
    /// Takes a party out of its run, with all that it has in hand.
    pub fn retire(self) -> Retired
        ensures who { result.who ≡ self.plain.who }
        ensures party { plain result.party ≡ self.plain.party }
        ensures log { result.log.entries ≡ self.plain.entries }
        ensures ends { result.ends ≡ self.plain.ends }
        ensures region { region_of result.party ≡ hands.region_of self.plain.ends }
        ensures numbers { (result.numbers.items ≡ []) × (vec_capacity result.numbers ≡ self.room) }
    {
        let Post {
            who,
            party,
            log,
            spares: _,
            desk: _,
            ends,
            numbers,
        } = self;
        Retired {
            who,
            party,
            log,
            ends,
            numbers,
        }
    }
}
