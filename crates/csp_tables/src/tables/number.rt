//! Numbers at the ends of their ranges: `number addr N`, `number port N`, `number prio N`, `number seq START MORE`,
//! `number ahead FROM TO`, `number between NUMBER LOW HIGH`, `number near NUMBER START AROUND`.

use csp_base::{Addr, Port, Prio, Seq, ahead, between};
use csp_cases::Case;

/// Tells whether a number is in a range, or what becomes of numbers of 16 bits.
pub(super) fn answer(case: &mut Case) {
    match case.word() {
        "seq" => {
            let first = Seq(case.short());
            let sum = first.add(case.long());
            case.tell_number(u64::from(sum.0));
        }
        "ahead" => {
            let [from, to] = case.shorts::<2>();
            case.tell_number(u64::from(ahead(Seq(from), Seq(to))));
        }
        "between" => {
            let [number, low, high] = case.shorts::<3>();
            case.tell_whether(between(Seq(number), Seq(low), Seq(high)));
        }
        "near" => near(case),
        which => within(case, which),
    }
}

/// Tells whether a number is in the range of an address, a port or a priority.
fn within(case: &mut Case, which: &str) {
    let number = case.small();
    let holds = match which {
        "addr" => Addr::new(number).is_some(),
        "port" => Port::new(number).is_some(),
        "prio" => Prio::new(number).is_some(),
        _ => return case.misread(),
    };
    case.tell_whether(holds);
}

/// Tells the index that a number shows near another.
fn near(case: &mut Case) {
    let [number, start] = case.shorts::<2>();
    let around = u64::from(case.number());
    match Seq(number).index_near(Seq(start), around) {
        Some(index) => case.tell_number(index),
        None => case.tell("none"),
    }
}
