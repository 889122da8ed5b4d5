//! The meeting of the ends of lanes.

ghost use Rattle.std.specs.List.{AllByRecursion, AllZip};
ghost use Rattle.csp_ends.specs.Ends.{IsSideOf};
ghost use Rattle.csp_meeting.specs.Meeting.{HaveMetLanes, HaveMetSides, KnowsMoreAt};

use csp_ends::{LaneEnd, Queues, Side};

/// Lets each of these ends meet each of the others.
#[tactic(auto, using(crate::proofs::Knowing::all_refl, crate::proofs::Knowing::all_trans, crate::proofs::Knowing::all_of_stays, crate::proofs::Knowing::each_met_stays))]
pub(crate) fn meet_lanes(queues: &Queues, first: &mut [Side], second: &mut [Side])
    requires of_it { AllByRecursion (IsSideOf queues.now) first.old × AllByRecursion (IsSideOf queues.now) second.old }
    ensures first { AllZip KnowsMoreAt first.old first.new }
    ensures second { AllZip KnowsMoreAt second.old second.new }
    ensures met { HaveMetLanes first.new second.new }
{
    if let Some((one, rest)) = first.split_first_mut() {
        meet_each(queues, one, second);
        meet_lanes(queues, rest, second);
    }
}

/// Lets an end meet each of the others.
fn meet_each(queues: &Queues, one: &mut Side, others: &mut [Side])
    requires of_it { IsSideOf queues.now one.old × AllByRecursion (IsSideOf queues.now) others.old }
    ensures one { KnowsMoreAt one.old one.new }
    ensures others { AllZip KnowsMoreAt others.old others.new }
    ensures met { AllByRecursion (HaveMetSides one.new) others.new }
{
    if let Some((other, rest)) = others.split_first_mut() {
        meet_side(queues, one, other);
        meet_each(queues, one, rest);
    }
}

/// Lets two ends meet, where they are those of one lane.
fn meet_side(queues: &Queues, one: &mut Side, other: &mut Side)
    requires of_it { IsSideOf queues.now one.old × IsSideOf queues.now other.old }
    ensures one { KnowsMoreAt one.old one.new }
    ensures other { KnowsMoreAt other.old other.new }
    ensures met { HaveMetSides one.new other.new }
{
    if one.node != other.node || one.lane != other.lane {
        return;
    }
    let lane = &queues.nodes[usize::from(one.node)].lanes[usize::from(one.lane)];
    match (&mut one.end, &mut other.end) {
        (LaneEnd::Puts(producer), LaneEnd::Gets(consumer)) => lane.meet(producer, consumer),
        (LaneEnd::Gets(consumer), LaneEnd::Puts(producer)) => lane.meet(producer, consumer),
        (LaneEnd::Puts(_), LaneEnd::Puts(_)) | (LaneEnd::Gets(_), LaneEnd::Gets(_)) => {}
    }
}
