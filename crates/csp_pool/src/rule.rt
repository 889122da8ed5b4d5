//! The rule of a pool, and what its steps tell. No value of these types is made.

ghost use Rattle.csp_pool.specs.Fairness.{HasClosed};
ghost use Rattle.csp_pool.specs.Hands.{IsAlone, spent_hand, took, gave, with_region, found_empty, found_full, split_left, split_right, told_hand, report_of, news_of, both};
ghost use Rattle.csp_pool.specs.PlainPool.{numbers};
ghost use Rattle.std.specs.Prelude.{◌≡◌, ◌<◌, length};

use crate::hand::Hand;
use csp_buffer::Buffer;
use csp_ring::protocol::{Finding, Join, Lesson, Outcome, Protocol, Split};

/// The rule of a pool: what was put is what was taken and what is there, and no pass knows more than was done.
pub struct Fairness;

impl Protocol<Buffer, Hand> for Fairness {
    ghost use Rattle.csp_pool.specs.Fairness.{Fair};
    ghost use Rattle.csp_pool.specs.Hands.{first_hand};

    ghost holds = { Fair };

    ghost first = { first_hand };
}

/// A take.
pub struct Takes;

impl Outcome<Buffer, Hand> for Takes {
    ghost then = { λ v b w. (w ≡ took v b.picture.number) × (b.region ≡ v.region) × (IsAlone v → length v.taken < length v.put) };
}

impl Finding<Buffer, Hand> for Takes {
    ghost found = { λ v bs w. (w ≡ found_empty v) × HasClosed v (numbers bs) };
}

/// A give.
pub struct Gives;

impl Outcome<Buffer, Hand> for Gives {
    ghost then = { λ v b w. w ≡ gave (with_region v b.region) b.picture.number };
}

impl Finding<Buffer, Hand> for Gives {
    ghost found = { λ v bs w. (w ≡ found_full (length bs) v) × HasClosed v (numbers bs) };
}

/// What is left once all other passes were joined.
pub struct Left;

impl Lesson<Buffer, Hand> for Left {
    ghost fact = { λ v bs. HasClosed v (numbers bs) };
}

/// A pass for another thread is split off.
pub struct Parts;

impl Split<Hand> for Parts {
    ghost left = { split_left };

    ghost right = { split_right };
}

/// A pass writes a note of what it hasn't told yet.
pub struct Reports;

impl Split<Hand> for Reports {
    ghost left = { told_hand };

    ghost right = { report_of };
}

/// A pass writes a note of what it knows.
pub struct News;

impl Split<Hand> for News {
    ghost left = { λ v. v };

    ghost right = { news_of };
}

/// A pass takes in another pass, or a note.
pub struct Joins;

impl Join<Hand> for Joins {
    ghost both = { both };

    ghost spent = { spent_hand };
}
