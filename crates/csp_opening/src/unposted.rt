//! The parties, before they have anything of the queues in hand.

ghost use Rattle.std.specs.Prelude.{◌≡◌, [], length, map, IfOk, vec_capacity};
ghost use Rattle.std.specs.List.{AllByRecursion};
ghost use Rattle.csp_opening.specs.Opened.{region_in};
ghost use Rattle.csp_opening.specs.Unposted.{AreUnposted, as_opened};
ghost use Rattle.csp_party.specs.Any.{holds, plain};
ghost use Rattle.csp_topology.specs.Opened.{AreParties};

use crate::nodes::Node;
use csp_deck::Desk;
use csp_party::AnyParty;
use csp_record::Who;
use csp_topology::{NewParty, NodeBuffers, Opening, end_parties, open_parties};
use std::alloc::{AllocError, Global};
use std::collections::VecDeque;

/// A party that has nothing of the queues in hand yet. It must be spent by `leave`, or by `post`.
pub(crate) struct Unposted {
    /// Which it is.
    pub who: Who,
    /// The party itself.
    pub party: AnyParty,
    /// What its turns write on.
    pub desk: Desk,
    /// Room for the numbers of the buffers that it holds at the end.
    pub numbers: Vec<u16>,
}

impl Unposted {
    /// Gives a party that holds no buffer a desk. A refusal ends it.
    fn open(alloc: Global, party: NewParty) -> Result<Unposted, AllocError>
        requires { holds (plain party.party) ≡ [] }
        ensures { IfOk result (λ s. as_opened s ≡ party) }
    {
        match Desk::open(alloc) {
            Ok(desk) => {
                let NewParty {
                    who,
                    party,
                    numbers,
                } = party;
                Ok(Unposted {
                    who,
                    party,
                    desk,
                    numbers,
                })
            }
            Err(error) => {
                party.end();
                Err(error)
            }
        }
    }

    /// Ends the party, which holds no buffer.
    fn leave(self)
        requires { holds (plain self.party) ≡ [] }
    {
        let Unposted {
            who: _,
            party,
            desk: _,
            numbers: _,
        } = self;
        party.end();
    }
}

/// Opens parties of these nodes, and links, in a list with just the room for them.
pub(crate) fn open_unposted(
    alloc: Global,
    openings: Vec<Opening>,
    nodes: &[Node],
) -> Result<Vec<Unposted>, AllocError>
    requires { AreParties (length nodes.now) openings.items }
    ensures { IfOk result (AreUnposted nodes.now openings.items) }
{
    let buffers = buffers_of(alloc, nodes)?;
    let parties = open_parties(alloc, openings, &buffers)?;
    let unposted = desk_all(alloc, parties)?;
    Ok(unposted)
}

/// The buffers of each of these nodes.
fn buffers_of(alloc: Global, nodes: &[Node]) -> Result<Vec<NodeBuffers>, AllocError>
    ensures regions { IfOk result (λ all. map (λ b. b.region.name) all.items ≡ map region_in nodes.now) }
    ensures counts { IfOk result (λ all. map (λ b. b.count) all.items ≡ map (λ x. x.base.pool.capacity) nodes.now) }
    ensures room { IfOk result (λ all. vec_capacity all ≡ length nodes.now) }
{
    let mut all = Vec::with_capacity(alloc, nodes.len())?;
    for node in nodes {
        all.push_reserved(NodeBuffers {
            region: node.base.store.token(),
            count: node.base.pool.capacity(),
        });
    }
    Ok(all)
}

/// Gives parties that hold no buffer a desk each, in a list with just the room for them. A refusal ends them all.
fn desk_all(alloc: Global, parties: Vec<NewParty>) -> Result<Vec<Unposted>, AllocError>
    requires { AllByRecursion (λ p. holds (plain p.party) ≡ []) parties.items }
    ensures same { IfOk result (λ r. map as_opened r.items ≡ parties.items) }
    ensures room { IfOk result (λ r. vec_capacity r ≡ length parties.items) }
{
    let count = parties.len();
    let mut parties = VecDeque::from_vec(parties);
    let mut unposted = match Vec::with_capacity(alloc, count) {
        Ok(unposted) => unposted,
        Err(error) => {
            end_parties(parties);
            return Err(error);
        }
    };
    while let Some(party) = parties.pop_front() {
        match Unposted::open(alloc, party) {
            Ok(one) => unposted.push_reserved(one),
            Err(error) => {
                leave_unposted(unposted);
                end_parties(parties);
                return Err(error);
            }
        }
    }
    parties.destroy_empty();
    Ok(unposted)
}

/// Ends parties that hold no buffer.
fn leave_unposted(unposted: Vec<Unposted>)
    requires { AllByRecursion (λ s. holds (plain s.party) ≡ []) unposted.items }
{
    let mut unposted = VecDeque::from_vec(unposted);
    while let Some(one) = unposted.pop_front() {
        one.leave();
    }
    unposted.destroy_empty();
}
