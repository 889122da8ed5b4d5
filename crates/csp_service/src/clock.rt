//! The clock of a node.

ghost use Rattle.std.specs.Prelude.{◌≡◌, ◌<◌, ◌^◌, [], pos};
ghost use Rattle.csp_cmp.specs.Replies.{clock_bytes};
ghost use Rattle.csp_service.specs.Clock.{IsClock, millis_of, nanos_of, seconds_of, clock_set, shown};

use crate::Served;
use crate::facts::Services;
use csp_cmp::{CmpReply, clock_reply};

/// Tells the clock; a request that has seconds other than 0 sets it first.
pub(crate) fn tell_clock(
    sec: u32,
    nsec: u32,
    services: &mut Services,
    now: u64,
    out: &mut CmpReply,
) -> Served
    requires empty { out.old.items ≡ [] }
    requires now { now < 2 ^ 62 }
    ensures replied { result ≡ Served.Reply }
    ensures reply { out.new.items ≡ clock_bytes (seconds_of (shown (clock_set sec nsec services.old.clock now) now)) (nanos_of (shown (clock_set sec nsec services.old.clock now) now)) }
    ensures services { services.new ≡ record services.old { clock = clock_set sec nsec services.old.clock now } }
{
    let clock = clock_set(sec, nsec, services.clock, now);
    let millis = shown(clock, now);
    services.clock = clock;
    clock_reply(seconds(millis), nanos(millis), out);
    Served::Reply
}

/// How far the clock is ahead of the time once a request was heard.
fn clock_set(sec: u32, nsec: u32, clock: i64, now: u64) -> i64
    requires clock { IsClock clock }
    requires now { now < 2 ^ 62 }
    ensures value { result ≡ clock_set sec nsec clock now }
    ensures clock { IsClock result }
{
    if sec == 0 {
        clock
    } else {
        millis(sec, nsec) as i64 - now as i64
    }
}

/// The milliseconds of seconds and nanoseconds, rounded down.
fn millis(sec: u32, nsec: u32) -> u64
    ensures value { result ≡ millis_of sec nsec }
    ensures small { result < 2 ^ 43 }
{
    u64::from(sec) * 1000 + u64::from(nsec / 1_000_000)
}

/// The milliseconds that a clock shows.
fn shown(clock: i64, now: u64) -> u64
    requires clock { IsClock clock }
    requires now { now < 2 ^ 62 }
    ensures { result ≡ shown clock now }
{
    let millis = clock + now as i64;
    if millis < 0 { 0 } else { millis as u64 }
}

/// The seconds of milliseconds, as a number of 32 bits.
pub(crate) fn seconds(millis: u64) -> u32
    ensures { result ≡ seconds_of millis }
{
    (millis / 1000 % (1 << 32)) as u32
}

/// The nanoseconds besides.
fn nanos(millis: u64) -> u32
    ensures { result ≡ nanos_of millis }
{
    (millis % 1000) as u32 * 1_000_000
}
