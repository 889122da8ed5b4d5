//! The meeting of two parties.

ghost use Rattle.csp_ends.specs.Ends.{AreOf};
ghost use Rattle.csp_meeting.specs.Meeting.{HaveMetEnds, Informs, KeepCounts, KnowsMore};

use crate::homes::meet_homes;
use crate::lanes::meet_lanes;
use csp_ends::{Ends, Queues};

/// Lets each of two parties know what went through the other's ends of the lanes between them. Where the first leads the
/// node of both, it hears besides what the other did with the pool and the inbox, and tells it what it knows of all.
pub fn meet(queues: &Queues, first: &mut Ends, second: &mut Ends)
    requires of_it { AreOf queues.now first.old × AreOf queues.now second.old }
    ensures first { KnowsMore first.old first.new }
    ensures second { KnowsMore second.old second.new }
    ensures met { HaveMetEnds first.new second.new }
    ensures informs { Informs first.old.home second.new.home }
    ensures counts { KeepCounts first.old.home second.old.home first.new.home second.new.home }
{
    meet_lanes(queues, &mut first.sides, &mut second.sides);
    meet_homes(queues, &mut first.home, &mut second.home);
}
