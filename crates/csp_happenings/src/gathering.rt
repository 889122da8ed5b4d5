//! What happened in a run.

ghost use Rattle.std.specs.Prelude.{◌≡◌, ◌++◌, OnOk, IfOk};
ghost use Rattle.std.specs.List.{flat_map};
ghost use Rattle.csp_happenings.specs.Happenings.{happenings, happenings_of};

use crate::kinds::Happening;
use crate::telling::tell_log;
use csp_record::{PartyLog, Record};
use csp_scene::Scene;
use std::alloc::{AllocError, Global};

/// Appends what happened in the turns of a party.
fn tell_party(
    alloc: Global,
    list: &mut Vec<Happening>,
    scene: &Scene,
    party: &PartyLog,
) -> Result<(), AllocError>
    ensures { OnOk result (list.new.items ≡ list.old.items ++ happenings_of scene.now party.now) }
{
    tell_log(alloc, list, scene, party.who, &party.log)
}

/// Appends what happened in the turns of these parties, one after the other.
fn tell_parties(
    alloc: Global,
    list: &mut Vec<Happening>,
    scene: &Scene,
    parties: &[PartyLog],
) -> Result<(), AllocError>
    ensures { OnOk result (list.new.items ≡ list.old.items ++ flat_map (happenings_of scene.now) parties.now) }
{
    for party in parties {
        tell_party(alloc, list, scene, party)?;
    }
    Ok(())
}

/// What happened in the turns of each party, one party after the other.
fn party_by_party(alloc: Global, scene: &Scene, run: &Record) -> Result<Vec<Happening>, AllocError>
    ensures { IfOk result (λ list. list.items ≡ flat_map (happenings_of scene.now) run.now.parties) }
{
    let mut list = Vec::new(alloc);
    tell_parties(alloc, &mut list, scene, run.parties.as_slice())?;
    Ok(list)
}

/// What happened in a run of this scene: round by round, and in a round party by party, each turn in its order.
///
/// # Errors
/// Want of memory, which is taken in proportion to what happened.
pub fn happenings(alloc: Global, scene: &Scene, run: &Record) -> Result<Vec<Happening>, AllocError>
    ensures { IfOk result (λ list. list.items ≡ happenings scene.now run.now) }
{
    let mut list = party_by_party(alloc, scene, run)?;
    list.sort_by_key(|happening| happening.time)?;
    Ok(list)
}
