//! What an application makes of an answer.

ghost use Rattle.std.specs.Prelude.{◌≡◌, ◌+◌, ◌-◌, ◌^◌, ◌<◌, Some, None, [], ◌∷◌, ◌++◌, slice_get, nat_lt};
ghost use Rattle.std.specs.Option.{option_to_list};
ghost use Rattle.csp_deck.specs.Regions.{IsAnswerFrom, IsItemOf};
ghost use Rattle.csp_deck.specs.Step.{IsAnswerOf, IsCleared};
ghost use Rattle.csp_log.specs.Pictures.{shown_answer, shown_item};

use crate::App;
use crate::items::{mark_in, note_in, put_packet};
use crate::packets::{filled, mark_of, packets_of};
use crate::plan::AppPlan;
use crate::slot::{KnownSlot, note_item, use_packets};
use csp_base::SLOTS;
use csp_buffer::Buffer;
use csp_log::{Answer, AnswerShown, Event, Events, Item, Note};

impl App {
    ghost use Rattle.csp_app.specs.PlainApp.{uses, count, with_app};
    ghost use Rattle.csp_app.specs.Asking.{awaits};
    ghost use Rattle.csp_app.specs.Room.{CanLook, GoesOn};
    ghost use Rattle.csp_app.specs.Steps.{batch, making, pushed_one, note_awaited, received, waited, turn_of};
    ghost use Rattle.csp_app.specs.Telling.{tells, events, at_rest};
    ghost use Rattle.csp_app.specs.ToldApp.{next};
    ghost use Rattle.csp_app.specs.Turn.{looked};
    ghost use Rattle.std.specs.Prelude.{slice_get, nat_lt, ◌++◌};

    pub(crate) fn told_now(&mut self, answer: Answer, now: u64, report: &mut Events)
        requires fits { IsAnswerOf (uses self.old.app) (awaits self.old.app) (shown_answer answer) }
        requires of_it { IsAnswerFrom self.old.region answer }
        requires countable { count self.old.app < 2 ^ 32 - 1 }
        requires unwritten { report.old.items ≡ [] }
        ensures events { report.new.items ≡ events self.old.app now (shown_answer answer) }
        ensures state { self.new ≡ with_app self.old (tells self.old.app now (shown_answer answer)) }
    {
        if let Answer::Empty = answer {
            self.told_empty(now, report);
        } else {
            self.told_of(answer, now, report);
        }
    }

    /// Any answer. It has room for what one may bring, which a turn that found nothing needn't pay for.
    #[inline(never)]
    fn told_of(&mut self, answer: Answer, now: u64, report: &mut Events)
        requires fits { IsAnswerOf (uses self.old.app) (awaits self.old.app) (shown_answer answer) }
        requires of_it { IsAnswerFrom self.old.region answer }
        requires countable { count self.old.app < 2 ^ 32 - 1 }
        requires unwritten { report.old.items ≡ [] }
        ensures events { report.new.items ≡ events self.old.app now (shown_answer answer) }
        ensures state { self.new ≡ with_app self.old (tells self.old.app now (shown_answer answer)) }
    {
        match answer {
            Answer::Nothing => self.told_nothing(now, report),
            Answer::Taken(buffer) => self.told_taken(buffer, now, report),
            Answer::NoBuffer => self.told_no_buffer(now, report),
            Answer::Given => self.told_given(now, report),
            Answer::PoolFull(buffer) => self.told_pool_full(buffer, now, report),
            Answer::Pushed => self.told_pushed(now, report),
            Answer::Full(item) => self.told_full(item, now, report),
            Answer::Popped(item) => self.told_popped(item, now, report),
            Answer::Empty => self.told_empty(now, report),
        }
    }

    #[tactic(auto, using(crate::proofs::Takes::takes_less))]
    fn told_nothing(&mut self, now: u64, report: &mut Events)
        requires fits { IsAnswerOf (uses self.old.app) (awaits self.old.app) AnswerShown.Nothing }
        requires unwritten { report.old.items ≡ [] }
        ensures events { report.new.items ≡ events self.old.app now AnswerShown.Nothing }
        ensures state { self.new ≡ with_app self.old (tells self.old.app now AnswerShown.Nothing) }
    {
        match self.doing {
            AppPlan::Skip => self.progress.advance(),
            AppPlan::Use { slot, count } => {
                use_packets(&mut self.slots, slot, count);
                self.progress.advance();
            }
            _ => {}
        }
        self.doing = AppPlan::Rest;
    }

    fn told_taken(&mut self, buffer: Buffer, now: u64, report: &mut Events)
        requires fits { IsAnswerOf (uses self.old.app) (awaits self.old.app) (AnswerShown.Taken buffer.picture) }
        requires of_it { buffer.region ≡ self.old.region }
        requires unwritten { report.old.items ≡ [] }
        ensures events { report.new.items ≡ events self.old.app now (AnswerShown.Taken buffer.picture) }
        ensures state { self.new ≡ with_app self.old (tells self.old.app now (AnswerShown.Taken buffer.picture)) }
    {
        match self.doing {
            AppPlan::Take => self.hold(buffer),
            AppPlan::Fill => self.make(buffer),
            _ => unreachable!(),
        }
    }

    /// A `take` step has its buffer.
    fn hold(&mut self, buffer: Buffer)
        requires doing { self.old.app.doing ≡ AppPlan.Take }
        requires of_it { buffer.region ≡ self.old.region }
        ensures { self.new ≡ with_app self.old (next (record (at_rest self.old.app) { held = self.old.app.held ++ buffer.picture ∷ [] })) }
    {
        self.held.add(buffer);
        self.progress.advance();
        self.doing = AppPlan::Rest;
    }

    /// A step has the buffer for its packet.
    fn make(&mut self, buffer: Buffer)
        requires doing { self.old.app.doing ≡ AppPlan.Fill }
        requires of_it { buffer.region ≡ self.old.region }
        ensures { self.new ≡ with_app self.old (making (batch self.old.app) buffer.picture (at_rest self.old.app)) }
    {
        let step = self.script.step(self.progress.done);
        self.mark = mark_of(&step);
        let packet = filled(&step, self.progress.sent, buffer);
        self.made.put(packet);
        self.doing = AppPlan::Rest;
    }

    fn told_no_buffer(&mut self, now: u64, report: &mut Events)
        requires fits { IsAnswerOf (uses self.old.app) (awaits self.old.app) AnswerShown.NoBuffer }
        requires unwritten { report.old.items ≡ [] }
        ensures events { report.new.items ≡ events self.old.app now AnswerShown.NoBuffer }
        ensures state { self.new ≡ with_app self.old (tells self.old.app now AnswerShown.NoBuffer) }
    {
        match self.doing {
            AppPlan::Take => report.push(self.miss()),
            AppPlan::Fill => {
                self.refused = true;
                self.doing = AppPlan::Rest;
            }
            _ => unreachable!(),
        }
    }

    /// A `take` step found the pool empty.
    fn miss(&mut self) -> Event
        requires { self.old.app.doing ≡ AppPlan.Take }
        ensures event { result ≡ Event.TookEmpty (self.old.app.done + 1) }
        ensures state { self.new ≡ with_app self.old (next (at_rest self.old.app)) }
    {
        let step = self.progress.done as u32 + 1;
        self.progress.advance();
        self.doing = AppPlan::Rest;
        Event::TookEmpty { step }
    }

    #[tactic(auto, using(crate::proofs::Takes::takes_less, crate::proofs::Takes::takes_take))]
    fn told_given(&mut self, now: u64, report: &mut Events)
        requires fits { IsAnswerOf (uses self.old.app) (awaits self.old.app) AnswerShown.Given }
        requires unwritten { report.old.items ≡ [] }
        ensures events { report.new.items ≡ events self.old.app now AnswerShown.Given }
        ensures state { self.new ≡ with_app self.old (tells self.old.app now AnswerShown.Given) }
    {
        if let AppPlan::Give = self.doing {
            self.progress.advance();
        }
        self.doing = AppPlan::Rest;
    }

    fn told_pool_full(&mut self, buffer: Buffer, now: u64, report: &mut Events)
        requires fits { IsAnswerOf (uses self.old.app) (awaits self.old.app) (AnswerShown.PoolFull buffer.picture) }
        requires of_it { buffer.region ≡ self.old.region }
        requires unwritten { report.old.items ≡ [] }
        ensures events { report.new.items ≡ events self.old.app now (AnswerShown.PoolFull buffer.picture) }
        ensures state { self.new ≡ with_app self.old (tells self.old.app now (AnswerShown.PoolFull buffer.picture)) }
    {
        match self.doing {
            AppPlan::Return => self.taken.put(buffer),
            AppPlan::Give => self.held.put_back(buffer),
            _ => unreachable!(),
        }
        self.refused = true;
        self.doing = AppPlan::Rest;
    }

    fn told_pushed(&mut self, now: u64, report: &mut Events)
        requires fits { IsAnswerOf (uses self.old.app) (awaits self.old.app) AnswerShown.Pushed }
        requires unwritten { report.old.items ≡ [] }
        ensures events { report.new.items ≡ events self.old.app now AnswerShown.Pushed }
        ensures state { self.new ≡ with_app self.old (tells self.old.app now AnswerShown.Pushed) }
    {
        match self.doing {
            AppPlan::Ask(_) => {
                self.progress.asked = true;
                self.doing = AppPlan::Rest;
            }
            AppPlan::Push => self.count_packet(),
            _ => unreachable!(),
        }
    }

    /// One more packet of a step was pushed: with the last of them it is done.
    #[tactic(auto, using(crate::proofs::Takes::takes_less))]
    fn count_packet(&mut self)
        requires { self.old.app.doing ≡ AppPlan.Push }
        ensures { self.new ≡ with_app self.old (pushed_one (nat_lt (self.old.app.sent + 1) (batch self.old.app).count) (at_rest self.old.app)).state }
    {
        self.doing = AppPlan::Rest;
        let packets = packets_of(&self.script.step(self.progress.done));
        if self.progress.has_more(packets) {
            self.progress.sent += 1;
        } else {
            self.progress.advance();
        }
    }

    fn told_full(&mut self, item: Item, now: u64, report: &mut Events)
        requires fits { IsAnswerOf (uses self.old.app) (awaits self.old.app) (AnswerShown.Full (shown_item item)) }
        requires of_it { IsItemOf self.old.region item }
        requires unwritten { report.old.items ≡ [] }
        ensures events { report.new.items ≡ events self.old.app now (AnswerShown.Full (shown_item item)) }
        ensures state { self.new ≡ with_app self.old (tells self.old.app now (AnswerShown.Full (shown_item item))) }
    {
        match self.doing {
            AppPlan::Ask(_) => put_packet(&mut self.taken, item),
            AppPlan::Push => {
                self.mark = mark_in(&item);
                put_packet(&mut self.made, item);
            }
            _ => unreachable!(),
        }
        self.refused = true;
        self.doing = AppPlan::Rest;
    }

    #[tactic(auto, using(crate::proofs::Popping::popped_hears, crate::proofs::Popping::popped_comes))]
    fn told_popped(&mut self, item: Item, now: u64, report: &mut Events)
        requires fits { IsAnswerOf (uses self.old.app) (awaits self.old.app) (AnswerShown.Popped (shown_item item)) }
        requires of_it { IsItemOf self.old.region item }
        requires countable { count self.old.app < 2 ^ 32 - 1 }
        requires unwritten { report.old.items ≡ [] }
        ensures events { report.new.items ≡ events self.old.app now (AnswerShown.Popped (shown_item item)) }
        ensures state { self.new ≡ with_app self.old (tells self.old.app now (AnswerShown.Popped (shown_item item))) }
    {
        let plan = self.doing;
        let note = note_in(&item);
        self.doing = AppPlan::Rest;
        note_item(&mut self.slots, &mut self.collectors, &item, report);
        put_packet(&mut self.taken, item);
        if let Some(event) = self.look_on(plan, note, now) {
            report.push(event);
        }
    }

    #[tactic(auto, using(crate::proofs::Popping::empty_hears, crate::proofs::Popping::empty_comes))]
    pub(crate) fn told_empty(&mut self, now: u64, report: &mut Events)
        requires fits { IsAnswerOf (uses self.old.app) (awaits self.old.app) AnswerShown.Empty }
        requires unwritten { report.old.items ≡ [] }
        ensures events { report.new.items ≡ events self.old.app now AnswerShown.Empty }
        ensures state { self.new ≡ with_app self.old (tells self.old.app now AnswerShown.Empty) }
    {
        let plan = self.doing;
        self.doing = AppPlan::Rest;
        if let Some(event) = self.look_on(plan, None, now) {
            report.push(event);
        }
    }

    /// `Down` was popped, and what came is noted: a step that waits looks whether it is done.
    #[inline(always)]
    fn look_on(&mut self, plan: AppPlan, note: Option<Note>, now: u64) -> Option<Event>
        requires resting { self.old.app.doing ≡ AppPlan.Rest }
        requires step { CanLook self.old.app plan }
        ensures event { option_to_list result ≡ (looked (turn_of self.old.app now plan) note self.old.app).events }
        ensures state { self.new ≡ with_app self.old (looked (turn_of self.old.app now plan) note self.old.app).state }
    {
        match plan {
            AppPlan::Look => None,
            AppPlan::Await => match &note {
                Some(note) => self.look_at_note(note),
                None => None,
            },
            AppPlan::Receive {
                slot,
                count,
                rounds,
            } => self.look_for(slot, count, rounds, now),
            AppPlan::Wait { rounds } => {
                self.look_at_time(rounds, now);
                None
            }
            _ => unreachable!(),
        }
    }

    /// A step that asked looks whether this note is its answer.
    #[tactic(auto, using(crate::proofs::Takes::takes_less))]
    fn look_at_note(&mut self, note: &Note) -> Option<Event>
        requires resting { self.old.app.doing ≡ AppPlan.Rest }
        requires step { GoesOn self.old.app }
        ensures event { option_to_list result ≡ (note_awaited self.old.app note.now).events }
        ensures state { self.new ≡ with_app self.old (note_awaited self.old.app note.now).state }
    {
        let step = self.progress.done as u32 + 1;
        match note {
            Note::Bound | Note::Connected { .. } | Note::Closed { .. } => {
                self.progress.advance();
                None
            }
            Note::Refused { why } => {
                self.progress.advance();
                Some(Event::Refused { step, why: *why })
            }
            Note::Down { .. } | Note::Bind { .. } | Note::Connect { .. } | Note::Close { .. } => {
                None
            }
        }
    }

    /// A `wait` step looks whether its rounds have passed.
    #[tactic(auto, using(crate::proofs::Takes::takes_less))]
    fn look_at_time(&mut self, rounds: u32, now: u64)
        requires resting { self.old.app.doing ≡ AppPlan.Rest }
        requires step { GoesOn self.old.app }
        ensures { self.new ≡ with_app self.old (waited rounds now self.old.app).state }
    {
        if self.progress.has_passed(rounds, now) {
            self.progress.advance();
        }
    }

    /// A `recv` step looks whether it is done: enough packets, the rounds passed, the slot down.
    #[tactic(auto, using(crate::proofs::Takes::takes_less))]
    #[inline(always)]
    fn look_for(&mut self, slot: u8, count: u32, rounds: Option<u32>, now: u64) -> Option<Event>
        requires resting { self.old.app.doing ≡ AppPlan.Rest }
        requires step { GoesOn self.old.app }
        requires slot { slot < SLOTS }
        ensures event { option_to_list result ≡ (received slot count rounds now self.old.app).events }
        ensures state { self.new ≡ with_app self.old (received slot count rounds now self.old.app).state }
    {
        let step = self.progress.done as u32 + 1;
        let KnownSlot { unused, down, .. } = self.slots[slot as usize];
        if count <= unused {
            use_packets(&mut self.slots, slot, count);
            self.progress.advance();
            return None;
        }
        if rounds.is_some_and(|rounds| self.progress.has_passed(rounds, now)) {
            self.progress.advance();
            return Some(Event::GaveUp { step });
        }
        if down {
            self.progress.advance();
            return Some(Event::SlotDown { step });
        }
        None
    }
}
