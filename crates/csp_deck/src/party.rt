//! What takes turns.

ghost use Rattle.std.specs.Prelude.{◌≡◌, ℕ, ◌+◌, ◌-◌, ◌^◌, ◌<◌, ◌≤◌, Bool, false, List, [], Option, IsSome, IfSome, MatchOption, All};
ghost use Rattle.csp_deck.specs.Circles.{LooksInto};
ghost use Rattle.csp_deck.specs.Regions.{IsOpOf, IsAnswerFrom};
ghost use Rattle.csp_deck.specs.Step.{Kind, kind_of, CanServe, IsAnswerOf, op_numbers, answer_numbers, times};
ghost use Rattle.csp_log.specs.Pictures.{shown_op, shown_answer};

use crate::{Answer, Events, Op, QueueId, Spares};
use arrayvec::ArrayVec;

/// The most queues of a circle.
pub const MAX_CIRCLE: usize = 8;

/// Queues that a party looks into one after the other.
pub type Circle = ArrayVec<QueueId, MAX_CIRCLE>;

/// A router, a bridge, an interface, an application or a link: it asks for one operation a turn, and
/// is told its answer.
///
/// Its state is what contracts see of it. What it asks, what it becomes and what it reports are
/// functions of that state and of pictures, so a party has just one behaviour.
pub trait Party {
    ghost use Rattle.csp_arena.specs.Cells.{RegionName};
    ghost use Rattle.csp_log.specs.PlainSpares.{PlainSpares};
    ghost use Rattle.csp_log.specs.declared.event.Event.{Event};
    ghost use Rattle.csp_log.specs.declared.places.QueueId.{QueueId};
    ghost use Rattle.csp_log.specs.declared.places.Rule.{Rule};
    ghost use Rattle.csp_log.specs.declared.shown.OpShown.{OpShown};
    ghost use Rattle.csp_log.specs.declared.shown.AnswerShown.{AnswerShown};

    /// It can be asked at this time.
    ghost is_ready: { Self → ℕ → Type 0 };

    /// It was asked at this time, and can be told.
    ghost is_waiting: { Self → ℕ → Type 0 };

    /// What kind of operation it waits to be answered.
    ghost awaits: { Self → Kind };

    /// It is done, and takes no turn any more.
    ghost has_ended: { Self → Bool };

    /// The queues that it uses, and what they carry.
    ghost uses: { Self → QueueId → Option Rule };

    /// The region of all buffers that it holds.
    ghost region: { Self → RegionName };

    /// The greatest of the numbers that its turns raise, each turn by at most one.
    ghost count: { Self → ℕ } = { λ _. 0 };

    /// How many frames a turn of it makes at most, each in a box of the stock that it is handed.
    ghost needs: { Self → ℕ } = { λ _. 0 };

    /// What is left of the stock of boxes once it was told this answer.
    ghost stocks: { Self → ℕ → AnswerShown → PlainSpares → PlainSpares } = { λ _ _ _ spares. spares };

    /// What it asks at this time.
    ghost asks: { Self → ℕ → OpShown };

    /// What it is once it has asked.
    ghost asked: { Self → ℕ → Self };

    /// What it is once it was told this answer.
    ghost tells: { Self → ℕ → AnswerShown → Self };

    /// What it reports when it is told this answer.
    ghost events: { Self → ℕ → AnswerShown → List Event };

    /// The numbers of the buffers that it holds.
    ghost holds: { Self → List ℕ };

    /// The operation of this turn.
    fn ask(&mut self, now: u64) -> Op
        requires ready { is_ready self.old now }
        requires early { now < 2 ^ 62 }
        requires countable { count self.old < 2 ^ 32 - 1 }
        requires goes_on { has_ended self.old ≡ false }
        ensures op { shown_op result ≡ asks self.old now }
        ensures state { self.new ≡ asked self.old now }
        ensures waiting { is_waiting self.new now }
        ensures awaits { awaits self.new ≡ kind_of (shown_op result) }
        ensures uses { (q : QueueId) → uses self.new q ≡ uses self.old q }
        ensures region { region self.new ≡ region self.old }
        ensures count { count self.new ≤ count self.old }
        ensures needs { needs self.new ≡ needs self.old }

        // It asks what the queues that it uses can serve: what it pushes, they carry.
        ensures served { CanServe (uses self.old) (shown_op result) }

        // What it hands over is of its region.
        ensures of_it { IsOpOf (region self.old) result }

        // It holds no more what it hands over.
        ensures holds { (k : ℕ) → times k (holds self.new) + times k (op_numbers (shown_op result)) ≡ times k (holds self.old) };

    /// The queue that this turn looks into, where such a look is all that it asks and is at hand. Else
    /// nothing is done, and it is to be asked.
    fn look(&mut self, now: u64) -> Option<QueueId>
        requires ready { is_ready self.old now }
        requires early { now < 2 ^ 62 }
        requires countable { count self.old < 2 ^ 32 - 1 }
        requires goes_on { has_ended self.old ≡ false }
        ensures looks { MatchOption result (self.new ≡ self.old) (λ q. (asks self.old now ≡ OpShown.Pop q) × (self.new ≡ asked self.old now)) }
        ensures waiting { IfSome result (λ q. is_waiting self.new now × (awaits self.new ≡ kind_of (OpShown.Pop q))) }
        ensures served { IfSome result (λ q. CanServe (uses self.old) (OpShown.Pop q)) }
        ensures uses { (q : QueueId) → uses self.new q ≡ uses self.old q }
        ensures region { region self.new ≡ region self.old }
        ensures count { count self.new ≤ count self.old }
        ensures needs { needs self.new ≡ needs self.old }
        ensures holds { (k : ℕ) → times k (holds self.new) ≡ times k (holds self.old) }
    {
        None
    }

    /// The queues that it looks into at this time, one after the other, until it is again as it is now, where
    /// each of them is empty. None where it does anything else before, or where that is not at hand.
    fn circle(&self, now: u64) -> Circle
        requires ready { is_ready self.now now }
        requires early { now < 2 ^ 62 }
        requires countable { count self.now < 2 ^ 32 - 1 }
        requires goes_on { has_ended self.now ≡ false }
        ensures looks { LooksInto (record { has_ended = has_ended; asks = asks; asked = asked; tells = tells; events = events }) now self.now result.items self.now }
        ensures served { All (λ q. IsSome (uses self.now q)) result.items }
    {
        let _now = now;
        Circle::new()
    }

    /// Ends the turn with the operation's answer. What it reports goes into `report`, which is empty;
    /// the frames that it makes are in boxes of `spares`.
    fn told(&mut self, answer: Answer, now: u64, report: &mut Events, spares: &mut Spares)
        requires waiting { is_waiting self.old now }
        requires fits { IsAnswerOf (uses self.old) (awaits self.old) (shown_answer answer) }
        requires of_it { IsAnswerFrom (region self.old) answer }
        requires early { now < 2 ^ 62 }
        requires countable { count self.old < 2 ^ 32 - 1 }
        requires unwritten { report.old.items ≡ [] }
        requires stock { needs self.old ≤ spares.old.boxes }
        ensures events { report.new.items ≡ events self.old now (shown_answer answer) }
        ensures state { self.new ≡ tells self.old now (shown_answer answer) }
        ensures ready { (later : ℕ) → now ≤ later → later < 2 ^ 62 → has_ended self.new ≡ false → is_ready self.new later }
        ensures uses { (q : QueueId) → uses self.new q ≡ uses self.old q }
        ensures region { region self.new ≡ region self.old }
        ensures count { count self.new ≤ count self.old + 1 }
        ensures needs { needs self.new ≡ needs self.old }

        // It takes the boxes of the frames that it makes, at most so many, and puts back those of the frames that it uses
        // up: one that came, and one in hand.
        ensures stock { spares.new ≡ stocks self.old now (shown_answer answer) spares.old }
        ensures least { spares.old.boxes ≤ spares.new.boxes + needs self.old }
        ensures most { spares.new.boxes ≤ spares.old.boxes + 2 }

        // It holds besides what it was given.
        ensures holds { (k : ℕ) → times k (holds self.new) ≡ times k (holds self.old) + times k (answer_numbers (shown_answer answer)) };

    /// Ends the turn of a look into a queue that was empty, as `told` does.
    fn miss(&mut self, now: u64, report: &mut Events, spares: &mut Spares)
        requires waiting { is_waiting self.old now }
        requires fits { IsAnswerOf (uses self.old) (awaits self.old) AnswerShown.Empty }
        requires early { now < 2 ^ 62 }
        requires countable { count self.old < 2 ^ 32 - 1 }
        requires unwritten { report.old.items ≡ [] }
        requires stock { needs self.old ≤ spares.old.boxes }
        ensures events { report.new.items ≡ events self.old now AnswerShown.Empty }
        ensures state { self.new ≡ tells self.old now AnswerShown.Empty }
        ensures ready { (later : ℕ) → now ≤ later → later < 2 ^ 62 → has_ended self.new ≡ false → is_ready self.new later }
        ensures uses { (q : QueueId) → uses self.new q ≡ uses self.old q }
        ensures region { region self.new ≡ region self.old }
        ensures count { count self.new ≤ count self.old + 1 }
        ensures needs { needs self.new ≡ needs self.old }
        ensures stock { spares.new ≡ stocks self.old now AnswerShown.Empty spares.old }
        ensures least { spares.old.boxes ≤ spares.new.boxes + needs self.old }
        ensures most { spares.new.boxes ≤ spares.old.boxes + 2 }
        ensures holds { (k : ℕ) → times k (holds self.new) ≡ times k (holds self.old) }
    {
        self.told(Answer::Empty, now, report, spares)
    }

    /// Whether it is done.
    fn ended(&self) -> bool
        ensures { result ≡ has_ended self.now };

    /// How many boxes a turn of it takes at most.
    fn boxes(&self) -> u8
        ensures { result ≡ needs self.now };
}
