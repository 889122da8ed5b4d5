//! What a link or a hub takes and hands on.

ghost use Rattle.std.specs.Prelude.{◌≡◌, ◌==◌, ◌&&◌, ◌+◌, ◌-◌, ◌^◌, ◌<◌, ◌≤◌, ℕ, if◌then◌else◌, IfOk, OnOk};
ghost use Rattle.std.specs.Option.{option_to_list};
ghost use Rattle.csp_link.specs.Fates.{afflicted, fate_of};
ghost use Rattle.csp_happenings.specs.Happenings.{moved_frame};
ghost use Rattle.csp_happenings.specs.Remembering.{count_of, fate_in, fate_known, AreWithin, Counts};

use crate::fates::Fate;
use crate::kinds::What;
use crate::taking::FrameCounts;
use csp_link::Fault;
use csp_log::{Framed, Piece, QueueId};
use std::alloc::{AllocError, Global};
use std::collections::BTreeMap;

/// What a plan says of frames, by direction and number.
type Fates = BTreeMap<(u8, u64), Fate, Global>;

/// What is kept in mind of a link or a hub: what its plan says of frames, and how many it took so far from each end.
#[derive(Drop)]
pub(crate) struct Carrying {
    fates: Fates,
    taken: FrameCounts,
}

/// What a plan says of the frame of this number.
fn fate_at(fates: &Fates, dir: u8, frame: u64) -> Fate
    ensures { result ≡ fate_in fates.now dir frame }
{
    match fates.get(&(dir, frame)) {
        Some(fate) => *fate,
        None => Fate::unharmed(),
    }
}

/// Adds a fault.
fn add_fault(fates: &mut Fates, fault: &Fault) -> Result<(), AllocError>
    ensures { OnOk result ((dir frame : ℕ) → fate_in fates.new dir frame ≡ (if fault.now.dir == dir && fault.now.frame == frame then afflicted fault.now.kind (fate_in fates.old dir frame) else fate_in fates.old dir frame)) }
{
    let fate = fate_at(fates, fault.dir, fault.frame).with(fault.kind);
    fates.insert((fault.dir, fault.frame), fate)?;
    Ok(())
}

/// What a plan says of frames.
fn fates_of(alloc: Global, plan: &[Fault]) -> Result<Fates, AllocError>
    ensures { IfOk result (λ fates. (dir frame : ℕ) → fate_in fates dir frame ≡ fate_of dir frame plan.now) }
{
    let mut fates = BTreeMap::new(alloc);
    for fault in plan {
        add_fault(&mut fates, fault)?;
    }
    Ok(fates)
}

impl Carrying {
    /// A link with this plan, which took no frame yet.
    pub(crate) fn open(alloc: Global, plan: &[Fault]) -> Result<Carrying, AllocError>
        ensures taken { IfOk result (λ c. (end : ℕ) → count_of c end ≡ 0) }
        ensures fates { IfOk result (λ c. (end n : ℕ) → fate_known c end n ≡ fate_of end n plan.now) }
    {
        Ok(Carrying {
            fates: fates_of(alloc, plan)?,
            taken: FrameCounts::none(),
        })
    }
}

/// What is told of a frame that a link took from this end.
fn taken(carrying: &mut Carrying, end: u8, frame: Piece) -> What
    requires { AreWithin (2 ^ 64 - 2) carrying.old }
    ensures told { result ≡ What.Carried end (count_of carrying.old end + 1) (fate_known carrying.old end (count_of carrying.old end + 1)) frame }
    ensures counts { Counts carrying.old carrying.new (Framed.Popped (QueueId.Tx end) frame) }
{
    let number = carrying.taken.count(end);
    What::Carried {
        end,
        number,
        fate: fate_at(&carrying.fates, end, number),
        frame,
    }
}

/// What is told of a turn of a link.
pub(crate) fn moved_frame(carrying: &mut Carrying, framed: Framed) -> Option<What>
    requires { AreWithin (2 ^ 64 - 2) carrying.old }
    ensures told { option_to_list result ≡ moved_frame (count_of carrying.old) (fate_known carrying.old) framed }
    ensures counts { Counts carrying.old carrying.new framed }
{
    match framed {
        Framed::Popped(QueueId::Tx(end), frame) => Some(taken(carrying, end, frame)),
        Framed::Pushed(QueueId::Rx(end), frame) => Some(What::HandedOn { end, frame }),
        _ => None,
    }
}
