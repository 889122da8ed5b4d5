//! The connections of an application that became open, as its router's log tells of them.

ghost use Rattle.std.specs.Prelude.{◌≡◌, ◌++◌, ◌<◌, [], get_or, length, slice_get, OnOk, IfOk};
ghost use Rattle.std.specs.List.{flat_map, list_any};
ghost use Rattle.std.specs.Option.{option_map_or};
ghost use Rattle.csp_log.specs.PlainLog.{all_events};
ghost use Rattle.csp_record.specs.Connections.{is_opened, opened_by, openings};

use crate::ends::Ends;
use crate::payloads::Transfer;
use csp_log::{Event, Log};
use std::alloc::{AllocError, Global};

/// A connection that became open.
#[derive(Clone, Copy)]
pub struct Opening {
    /// Its slot.
    pub slot: u8,
    /// How often the slot was freed before.
    pub ordinal: u64,
    /// The number of its flow, where it is of the reliable transport.
    pub nth: Option<u32>,
    /// The place of its peer's node among the nodes, and the number of the peer's flow there.
    pub peer: Option<(u8, u32)>,
}

/// Whether an event tells that a connection became open.
fn is_opened(event: &Event) -> bool
    ensures { result ≡ is_opened event.now }
{
    matches!(event, Event::Opened { .. })
}

/// Whether an event of a router's log tells that a connection became open, of whichever application.
fn any_opened(log: &Log) -> bool
    ensures { result ≡ list_any is_opened (all_events log.now.entries) }
{
    log.all_events().iter().any(is_opened)
}

/// Appends the connection of this application that an event tells to be open.
fn add_opening(
    list: &mut Vec<Opening>,
    app: usize,
    ends: &Ends,
    event: Event,
) -> Result<(), AllocError>
    ensures { OnOk result (list.new.items ≡ list.old.items ++ opened_by app (λ slot. get_or ends.now slot 0) event) }
{
    match event {
        Event::Opened {
            app: number,
            slot,
            nth,
            peer,
        } if usize::from(number) == app => {
            list.push(Opening {
                slot,
                ordinal: ends.of(slot),
                nth,
                peer,
            })?;
            Ok(())
        }
        _ => Ok(()),
    }
}

/// Appends the connections of this application that these events tell to be open.
fn add_openings(
    list: &mut Vec<Opening>,
    app: usize,
    ends: &Ends,
    events: &[Event],
) -> Result<(), AllocError>
    ensures { OnOk result (list.new.items ≡ list.old.items ++ flat_map (opened_by app (λ slot. get_or ends.now slot 0)) events.now) }
{
    for event in events {
        add_opening(list, app, ends, *event)?;
    }
    Ok(())
}

/// The connections of this application that became open, in order of time, by the log of its router.
pub fn openings(alloc: Global, log: &Log, app: usize) -> Result<Vec<Opening>, AllocError>
    ensures { IfOk result (λ list. list.items ≡ openings app log.now.entries) }
{
    let mut list = Vec::new(alloc);
    // Where no event tells of an opening there is none, and no entry need be looked at.
    if !any_opened(log) {
        return Ok(list);
    }
    let mut ends = Ends::none();
    let mut index = log.next_deed(0);
    while index < log.len() {
        add_openings(&mut list, app, &ends, log.events(index))?;
        ends.note(Transfer::Sent, app, log.noted(index));
        index = log.next_deed(index + 1);
    }
    Ok(list)
}
