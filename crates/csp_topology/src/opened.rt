//! The parties of a network, opened.

ghost use Rattle.std.specs.Prelude.{◌≡◌, ◌<◌, [], length, map, IfOk, IfSome, IsSome, vec_capacity};
ghost use Rattle.std.specs.List.{AllByRecursion};
ghost use Rattle.csp_log.specs.Who.{node_of};
ghost use Rattle.csp_party.specs.Any.{holds, plain};
ghost use Rattle.csp_topology.specs.Opened.{AreParties, IsOpened, opened_as};
ghost use Rattle.csp_topology.specs.Opening.{CanOpen, IsOfRegion, opening_of};

use crate::opening::Opening;
use csp_arena::RegionToken;
use csp_party::AnyParty;
use csp_record::Who;
use std::alloc::{AllocError, Global};
use std::collections::VecDeque;

/// The buffers of a node, of which its parties have theirs.
#[derive(Drop)]
pub struct NodeBuffers {
    /// The token of their region.
    pub region: RegionToken,
    /// How many there are.
    pub count: usize,
}

/// A party before its first turn. It must be spent, by `end_parties` where it is of no use.
pub struct NewParty {
    /// Which it is.
    pub who: Who,
    /// The party itself.
    pub party: AnyParty,
    /// Room for the numbers of the buffers that it holds at the end.
    pub numbers: Vec<u16>,
}

impl NewParty {
    /// Opens a party of a node with so many buffers, of this region; or a link or a hub.
    fn open(
        alloc: Global,
        opening: Opening,
        region: Option<RegionToken>,
        buffers: usize,
    ) -> Result<NewParty, AllocError>
        requires ready { CanOpen opening }
        requires region { IsSome (node_of (opening_of opening).who) → IsSome region }
        ensures name { IfOk result (λ p. opened_as p ≡ opening_of opening) }
        ensures region { IfOk result (λ p. IsOfRegion (node_of (opening_of opening).who) region p.party) }
        ensures unnoted { IfOk result (λ p. p.numbers.items ≡ []) }
        ensures numbers { IfOk result (λ p. vec_capacity p.numbers ≡ buffers) }
    {
        let numbers = Vec::with_capacity(alloc, buffers)?;
        let who = opening.who();
        let party = opening.open(alloc, region)?;
        Ok(NewParty {
            who,
            party,
            numbers,
        })
    }

    /// Opens a party of one of the nodes with these buffers, or a link or a hub.
    fn open_at(
        alloc: Global,
        opening: Opening,
        nodes: &[NodeBuffers],
    ) -> Result<NewParty, AllocError>
        requires ready { CanOpen opening }
        requires there { IfSome (node_of (opening_of opening).who) (λ node. node < length nodes.now) }
        ensures name { IfOk result (λ p. opened_as p ≡ opening_of opening) }
        ensures opened { IfOk result (IsOpened nodes.now) }
    {
        match opening.who().node() {
            Some(place) => {
                let buffers = &nodes[usize::from(place)];
                NewParty::open(alloc, opening, Some(buffers.region.copy()), buffers.count)
            }
            None => NewParty::open(alloc, opening, None, 0),
        }
    }

    /// Ends a party that holds no buffer.
    pub fn end(self)
        requires { holds (plain self.party) ≡ [] }
    {
        let NewParty {
            who: _,
            party,
            numbers: _,
        } = self;
        party.end();
    }
}

/// Opens the parties of a network in their order, in a list with just the room for them: those of the nodes with these
/// buffers, each over the buffers of its node, and the links and hubs. A refusal ends those that were opened.
///
/// # Errors
/// Want of memory.
pub fn open_parties(
    alloc: Global,
    openings: Vec<Opening>,
    nodes: &[NodeBuffers],
) -> Result<Vec<NewParty>, AllocError>
    requires { AreParties (length nodes.now) openings.items }
    ensures parties { IfOk result (λ r. map opened_as r.items ≡ map opening_of openings.items) }
    ensures opened { IfOk result (λ r. AllByRecursion (IsOpened nodes.now) r.items) }
    ensures room { IfOk result (λ r. vec_capacity r ≡ length openings.items) }
{
    let mut parties = Vec::with_capacity(alloc, openings.len())?;
    let mut openings = VecDeque::from_vec(openings);
    while let Some(opening) = openings.pop_front() {
        match NewParty::open_at(alloc, opening, nodes) {
            Ok(party) => parties.push_reserved(party),
            Err(error) => {
                end_parties(VecDeque::from_vec(parties));
                return Err(error);
            }
        }
    }
    Ok(parties)
}

/// Ends parties that hold no buffer.
pub fn end_parties(mut parties: VecDeque<NewParty>)
    requires { AllByRecursion (λ p. holds (plain p.party) ≡ []) parties.items }
{
    while let Some(party) = parties.pop_front() {
        party.end();
    }
    parties.destroy_empty();
}
