//! An inbox alone, and between three threads that put and one that gets.

ghost use Rattle.std.specs.Prelude.{◌≡◌, true, ◌+◌, ◌*◌, ◌/◌, ◌^◌, ◌<◌, ◌≤◌, IfErr, IfOk, vec_len, vec_capacity};
ghost use Rattle.csp_arena.specs.Cells.{RegionName};
ghost use Rattle.csp_base.specs.Priority.{prio_of};
ghost use Rattle.csp_buffer.specs.Memory.{AreAllOf};
ghost use Rattle.csp_deck.specs.Regions.{IsItemOf};
ghost use Rattle.csp_inbox.specs.Passes.{IsPassOf, opening_pass};
ghost use Rattle.csp_log.specs.declared.places.TheConstants.{IFACES, UNMARKED};
ghost use Rattle.csp_queue_tests.specs.Packets.{IsPacket};
ghost use Rattle.std.specs.Mem.{manually_drop_value};

use csp_arena::RegionToken;
use csp_base::Prio;
use csp_buffer::{Buffer, Memory};
use csp_deck::{Item, UNMARKED};
use csp_inbox::{Inbox, InboxPass};
use std::alloc::{AllocError, Global};
use std::mem::ManuallyDrop;
use std::sync::Wait;
use std::test::*;
use std::thread;
use std::thread::Threads;

/// So often each thread tries, at most.
const TRIES: u32 = 100_000;

/// So many packets each writer puts.
const PACKETS: u16 = 4;

/// Buffers that a thread takes with it. They must be spent like any others.
type Stock = ManuallyDrop<Vec<Buffer>>;

/// What came, of three marks and two priorities each: how many packets, whether each pair's came with rising numbers,
/// and the number above the last of each pair.
#[derive(Drop)]
struct Heard {
    count: u32,
    in_order: bool,
    last: [u16; 6],
}

impl Heard {
    /// Takes note of an item, and spends it.
    fn hear(&mut self, item: Item) {
        match item {
            Item::Packet { mark, buffer } => {
                let number = buffer.number();
                let _spent = unsafe { ManuallyDrop::new_unchecked(buffer) };
                self.note(usize::from(mark % 3) * 2 + usize::from(number % 2), number);
            }
            other => {
                let _spent = unsafe { ManuallyDrop::new_unchecked(other) };
                self.in_order = false;
            }
        }
    }

    fn note(&mut self, pair: usize, number: u16)
        requires { pair < 6 }
    {
        self.in_order = self.in_order && number >= self.last[pair];
        self.last[pair] = number.wrapping_add(1);
        self.count = self.count.wrapping_add(1);
    }
}

/// What came, with these items after it. They are spent.
fn hear_all(mut heard: Heard, mut items: Vec<Item>) -> Heard {
    items.reverse();
    while let Some(item) = items.pop() {
        heard.hear(item);
    }
    items.destroy_empty();
    heard
}

/// The priority at which a buffer goes: by turns the most and the least urgent.
fn urgency(number: u16) -> Prio {
    if number % 2 == 0 {
        Prio::Critical
    } else {
        Prio::Low
    }
}

/// A header word with this priority.
fn word_of(prio: Prio) -> u32
    ensures { prio_of (result / 2 ^ 30) ≡ prio }
{
    match prio {
        Prio::Critical => 0,
        Prio::High => 1 << 30,
        Prio::Normal => 2 << 30,
        Prio::Low => 3 << 30,
    }
}

/// The buffer in a packet.
fn unpack(item: Item) -> Buffer
    requires { IsPacket item }
    ensures { (r : RegionName) → IsItemOf r item → result.region ≡ r }
{
    match item {
        Item::Packet { mark: _, buffer } => buffer,
        Item::Frame(_) | Item::Note(_) => unreachable!(),
    }
}

/// Puts a buffer under a mark.
fn put_one<R: Wait>(
    rt: &R,
    inbox: &Inbox,
    pass: &mut InboxPass,
    mark: u8,
    mut buffer: Buffer,
) -> Result<(), Buffer>
    requires of_it { IsPassOf inbox.now pass.old }
    requires mark { (pass.old.role.mark ≡ mark) × (mark < IFACES) }
    requires region { buffer.region ≡ pass.old.role.token.name }
    ensures role { pass.new.role ≡ pass.old.role }
    ensures of_it { IsPassOf inbox.now pass.new }
    ensures back { IfErr result (λ b. b.region ≡ pass.old.role.token.name) }
{
    let prio = urgency(buffer.number());
    buffer.set_header(word_of(prio));
    match inbox.push(rt, pass, prio, Item::Packet { mark, buffer }) {
        Ok(()) => Ok(()),
        Err(item) => Err(unpack(item)),
    }
}

/// Puts these buffers, the last first, and says how many it put.
fn put_all<R: Wait>(
    rt: &R,
    inbox: &Inbox,
    mut pass: InboxPass,
    mark: u8,
    buffers: Stock,
) -> (InboxPass, u32)
    requires of_it { IsPassOf inbox.now pass }
    requires mark { (pass.role.mark ≡ mark) × (mark < IFACES) }
    requires region { AreAllOf pass.role.token.name (manually_drop_value buffers).items }
    ensures of_it { IsPassOf inbox.now result.0 }
    ensures role { result.0.role ≡ pass.role }
{
    let mut buffers = ManuallyDrop::into_inner(buffers);
    let mut put: u32 = 0;
    for _ in 0..TRIES {
        let Some(buffer) = buffers.pop() else {
            break;
        };
        match put_one(rt, inbox, &mut pass, mark, buffer) {
            Ok(()) => put = put.wrapping_add(1),
            Err(back) => {
                buffers.push_reserved(back);
                thread::yield_now();
            }
        }
    }
    let _left = unsafe { ManuallyDrop::new_unchecked(buffers) };
    (pass, put)
}

/// Gets packets until it has got so many.
fn get_all<R: Wait>(
    rt: &R,
    inbox: &Inbox,
    mut pass: InboxPass,
    mut heard: Heard,
    all: u32,
) -> (InboxPass, Heard)
    requires of_it { IsPassOf inbox.now pass }
    requires opening { pass.role.reads ≡ true }
    ensures of_it { IsPassOf inbox.now result.0 }
    ensures role { result.0.role ≡ pass.role }
{
    for _ in 0..TRIES {
        if heard.count >= all {
            break;
        }
        match inbox.pop(rt, &mut pass) {
            Some(item) => heard.hear(item),
            None => thread::yield_now(),
        }
    }
    (pass, heard)
}

/// Two threads put under marks 0 and 1.
fn two_put<R: Threads + Wait + Sync>(
    rt: &R,
    inbox: &Inbox,
    first: InboxPass,
    second: InboxPass,
    a: Stock,
    b: Stock,
) -> ((InboxPass, u32), (InboxPass, u32))
    requires first { IsPassOf inbox.now first × (first.role.mark ≡ 0) × AreAllOf first.role.token.name (manually_drop_value a).items }
    requires second { IsPassOf inbox.now second × (second.role.mark ≡ 1) × AreAllOf second.role.token.name (manually_drop_value b).items }
    ensures first { IsPassOf inbox.now result.0.0 × (result.0.0.role ≡ first.role) }
    ensures second { IsPassOf inbox.now result.1.0 × (result.1.0.role ≡ second.role) }
{
    thread::join(
        rt,
        move ||
            requires { IsPassOf inbox.now first × (first.role.mark ≡ 0) × AreAllOf first.role.token.name (manually_drop_value a).items }
            ensures { IsPassOf inbox.entry.now result.0 × (result.0.role ≡ first.role) }
        { put_all(rt, inbox, first, 0, a) },
        move ||
            requires { IsPassOf inbox.now second × (second.role.mark ≡ 1) × AreAllOf second.role.token.name (manually_drop_value b).items }
            ensures { IsPassOf inbox.entry.now result.0 × (result.0.role ≡ second.role) }
        { put_all(rt, inbox, second, 1, b) },
    )
}

/// One thread puts under mark 2 and another gets.
fn put_and_get<R: Threads + Wait + Sync>(
    rt: &R,
    inbox: &Inbox,
    third: InboxPass,
    opening: InboxPass,
    c: Stock,
    heard: Heard,
) -> ((InboxPass, u32), (InboxPass, Heard))
    requires third { IsPassOf inbox.now third × (third.role.mark ≡ 2) × AreAllOf third.role.token.name (manually_drop_value c).items }
    requires opening { IsPassOf inbox.now opening × (opening.role.reads ≡ true) }
    ensures third { IsPassOf inbox.now result.0.0 × (result.0.0.role ≡ third.role) }
    ensures opening { IsPassOf inbox.now result.1.0 × (result.1.0.role ≡ opening.role) }
{
    thread::join(
        rt,
        move ||
            requires { IsPassOf inbox.now third × (third.role.mark ≡ 2) × AreAllOf third.role.token.name (manually_drop_value c).items }
            ensures { IsPassOf inbox.entry.now result.0 × (result.0.role ≡ third.role) }
        { put_all(rt, inbox, third, 2, c) },
        move ||
            requires { IsPassOf inbox.now opening × (opening.role.reads ≡ true) }
            ensures { IsPassOf inbox.entry.now result.0 × (result.0.role ≡ opening.role) }
        { get_all(rt, inbox, opening, heard, u32::from(3 * PACKETS)) },
    )
}

/// Three threads put these buffers and a fourth gets packets; what is left is appended. How many were put, and what
/// came.
fn share<R: Threads + Wait + Sync>(
    rt: &R,
    inbox: Inbox,
    mut pass: InboxPass,
    buffers: (Stock, Stock, Stock),
    into: &mut Vec<Item>,
) -> (u32, Heard)
    requires pass { pass ≡ opening_pass inbox pass.role.token.name }
    requires region { AreAllOf pass.role.token.name (manually_drop_value buffers.0).items × AreAllOf pass.role.token.name (manually_drop_value buffers.1).items × AreAllOf pass.role.token.name (manually_drop_value buffers.2).items }
    requires room { vec_len into.old + 4 * inbox.room ≤ vec_capacity into.old }
{
    let (a, b, c) = buffers;
    let heard = Heard {
        count: 0,
        in_order: true,
        last: [0; 6],
    };
    let first = inbox.split(&mut pass, 0);
    let second = inbox.split(&mut pass, 1);
    let third = inbox.split(&mut pass, 2);
    let shared = &inbox;
    let (((first, x), (second, y)), ((third, z), (mut pass, heard))) = thread::join(
        rt,
        move ||
            requires { IsPassOf shared.now first × (first.role.mark ≡ 0) × AreAllOf first.role.token.name (manually_drop_value a).items × IsPassOf shared.now second × (second.role.mark ≡ 1) × AreAllOf second.role.token.name (manually_drop_value b).items }
            ensures { IsPassOf shared.entry.now result.0.0 × (result.0.0.role ≡ first.role) × IsPassOf shared.entry.now result.1.0 × (result.1.0.role ≡ second.role) }
        { two_put(rt, shared, first, second, a, b) },
        move ||
            requires { IsPassOf shared.now third × (third.role.mark ≡ 2) × AreAllOf third.role.token.name (manually_drop_value c).items × IsPassOf shared.now pass × (pass.role.reads ≡ true) }
            ensures { IsPassOf shared.entry.now result.0.0 × (result.0.0.role ≡ third.role) × IsPassOf shared.entry.now result.1.0 × (result.1.0.role ≡ pass.role) }
        { put_and_get(rt, shared, third, pass, c, heard) },
    );
    inbox.join(&mut pass, first);
    inbox.join(&mut pass, second);
    inbox.join(&mut pass, third);
    inbox.close(rt, pass, into);
    (x.wrapping_add(y).wrapping_add(z), heard)
}

/// Some of these buffers, which are of this region.
fn deal(alloc: Global, region: &RegionToken, from: &mut Vec<Buffer>) -> Result<Stock, AllocError>
    requires { AreAllOf region.now.name from.old.items }
    ensures rest { AreAllOf region.now.name from.new.items }
    ensures dealt { IfOk result (λ v. AreAllOf region.now.name (manually_drop_value v).items) }
{
    let mut some = Vec::with_capacity(alloc, usize::from(PACKETS))?;
    for _ in 0..PACKETS {
        match from.pop() {
            Some(buffer) => some.push_reserved(buffer),
            None => (),
        }
    }
    Ok(unsafe { ManuallyDrop::new_unchecked(some) })
}

/// Buffers for three threads. Those that are left over stay with the process.
fn stocks(
    alloc: Global,
    region: &RegionToken,
    mut buffers: Vec<Buffer>,
) -> Result<(Stock, Stock, Stock), AllocError>
    requires { AreAllOf region.now.name buffers.items }
    ensures { IfOk result (λ s. AreAllOf region.now.name (manually_drop_value s.0).items × AreAllOf region.now.name (manually_drop_value s.1).items × AreAllOf region.now.name (manually_drop_value s.2).items) }
{
    let first: Result<Stock, AllocError> = deal(alloc, region, &mut buffers);
    let second: Result<Stock, AllocError> = deal(alloc, region, &mut buffers);
    let third: Result<Stock, AllocError> = deal(alloc, region, &mut buffers);
    let _rest = unsafe { ManuallyDrop::new_unchecked(buffers) };
    let first = first?;
    let second = second?;
    let third = third?;
    Ok((first, second, third))
}

/// Puts the last of these buffers without a mark, and says whether there was room.
fn put_next<R: Wait>(
    rt: &R,
    inbox: &Inbox,
    pass: &mut InboxPass,
    prio: Prio,
    from: &mut Vec<Buffer>,
) -> bool
    requires of_it { IsPassOf inbox.now pass.old }
    requires mark { pass.old.role.mark ≡ UNMARKED }
    requires region { AreAllOf pass.old.role.token.name from.old.items }
    ensures of_it { IsPassOf inbox.now pass.new × (pass.new.role ≡ pass.old.role) }
    ensures region { AreAllOf pass.old.role.token.name from.new.items }
{
    let Some(mut buffer) = from.pop() else {
        return false;
    };
    buffer.set_header(word_of(prio));
    match inbox.push(
        rt,
        pass,
        prio,
        Item::Packet {
            mark: UNMARKED,
            buffer,
        },
    ) {
        Ok(()) => true,
        Err(item) => {
            priority(item);
            false
        }
    }
}

/// The number of the priority in a packet's header. The item is spent.
fn priority(item: Item) -> Option<u32> {
    match item {
        Item::Packet { mark: _, buffer } => {
            let word = buffer.header();
            let _spent = unsafe { ManuallyDrop::new_unchecked(buffer) };
            Some(word >> 30)
        }
        other => {
            let _spent = unsafe { ManuallyDrop::new_unchecked(other) };
            None
        }
    }
}

/// Gets the next packet, and gives its priority.
fn get_next<R: Wait>(rt: &R, inbox: &Inbox, pass: &mut InboxPass) -> Option<u32>
    requires of_it { IsPassOf inbox.now pass.old }
    requires opening { pass.old.role.reads ≡ true }
    ensures { IsPassOf inbox.now pass.new × (pass.new.role ≡ pass.old.role) }
{
    priority(inbox.pop(rt, pass)?)
}

/// Puts six packets, of priorities 3, 2, 1, 0, 2 and 2, and gets six times: whether each had room, and which
/// priorities came. What is left is appended.
fn put_six<R: Wait>(
    rt: &R,
    inbox: Inbox,
    mut pass: InboxPass,
    mut from: Vec<Buffer>,
    into: &mut Vec<Item>,
) -> ([bool; 6], [Option<u32>; 6])
    requires pass { pass ≡ opening_pass inbox pass.role.token.name }
    requires region { AreAllOf pass.role.token.name from.items }
    requires room { vec_len into.old + 4 * inbox.room ≤ vec_capacity into.old }
{
    let had_room = [
        put_next(rt, &inbox, &mut pass, Prio::Low, &mut from),
        put_next(rt, &inbox, &mut pass, Prio::Normal, &mut from),
        put_next(rt, &inbox, &mut pass, Prio::High, &mut from),
        put_next(rt, &inbox, &mut pass, Prio::Critical, &mut from),
        put_next(rt, &inbox, &mut pass, Prio::Normal, &mut from),
        put_next(rt, &inbox, &mut pass, Prio::Normal, &mut from),
    ];
    let came = [
        get_next(rt, &inbox, &mut pass),
        get_next(rt, &inbox, &mut pass),
        get_next(rt, &inbox, &mut pass),
        get_next(rt, &inbox, &mut pass),
        get_next(rt, &inbox, &mut pass),
        get_next(rt, &inbox, &mut pass),
    ];
    inbox.close(rt, pass, into);
    let _rest = unsafe { ManuallyDrop::new_unchecked(from) };
    (had_room, came)
}

#[test]
#[tactic(auto, using(crate::proofs::Fresh::all_fresh))]
fn the_most_urgent_comes_first(rt: HostRuntime) -> Result<(), Fail> {
    let (memory, buffers) = Memory::open(rt.alloc(), 6)?;
    let region = memory.token();
    let _kept = unsafe { ManuallyDrop::new_unchecked(memory) };
    let mut left = Vec::with_capacity(rt.alloc(), 8).expect(&rt, "memory is ample");
    let (inbox, pass) = Inbox::open(rt.alloc(), &region, 2).expect(&rt, "memory is ample");
    let (had_room, came) = put_six(&rt, inbox, pass, buffers, &mut left);
    let _left = unsafe { ManuallyDrop::new_unchecked(left) };
    assert_eq!(rt; had_room, [true, true, true, true, true, false]);
    assert_eq!(rt; came, [Some(0), Some(1), Some(2), Some(2), Some(3), None]);
    Ok(())
}

#[test]
#[tactic(auto, using(crate::proofs::Fresh::all_fresh))]
fn the_packets_of_three_writers_come_in_order_each_once(rt: HostRuntime) -> Result<(), Fail> {
    let (memory, buffers) = Memory::open(rt.alloc(), 3 * PACKETS)?;
    let region = memory.token();
    let _kept = unsafe { ManuallyDrop::new_unchecked(memory) };
    let stocks = stocks(rt.alloc(), &region, buffers)?;
    let mut left = Vec::with_capacity(rt.alloc(), 8).expect(&rt, "memory is ample");
    let (inbox, pass) = Inbox::open(rt.alloc(), &region, 2).expect(&rt, "memory is ample");
    let (put, heard) = share(&rt, inbox, pass, stocks, &mut left);
    let heard = hear_all(heard, left);
    assert_eq!(rt; (heard.count, heard.in_order), (put, true));
    Ok(())
}
