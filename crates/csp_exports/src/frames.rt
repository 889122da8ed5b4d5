//! The frames that an end put on its link, as bytes and as lines.

ghost use Rattle.std.specs.Prelude.{◌≡◌, ◌++◌, ◌<◌, OnOk, IfOk};
ghost use Rattle.std.specs.Fmt.{decimal};
ghost use Rattle.std.specs.List.{flat_map};
ghost use Rattle.std.specs.Option.{option_map};
ghost use Rattle.hex.specs.Hex.{encode_upper};
ghost use Rattle.csp_report.specs.Lines.{ended_line};
ghost use Rattle.csp_exports.specs.Frames.{exported, frame_line, frame_word, put_on, stamp_word, three_digits, written, written_by, written_for};

use crate::ends::Form;
use crate::parties::is_iface_at;
use csp_log::{AnswerShown, End, Entry, Frame, ItemShown, Log, OpShown, QueueId};
use csp_record::{PartyLog, Record};
use itoa::Buffer;
use std::alloc::{AllocError, Global};

/// Appends a number in decimal digits.
fn push_decimal(out: &mut Vec<u8>, number: u64) -> Result<(), AllocError>
    ensures { OnOk result (out.new.items ≡ out.old.items ++ decimal number) }
{
    let mut digits = Buffer::new();
    out.extend_from_slice(digits.format(number).as_bytes())
}

/// Appends a number below 1,000 in three digits.
fn push_three(out: &mut Vec<u8>, number: u64) -> Result<(), AllocError>
    requires { number < 1000 }
    ensures { OnOk result (out.new.items ≡ out.old.items ++ three_digits number) }
{
    out.push(b'0' + (number / 100) as u8)?;
    out.push(b'0' + (number / 10 % 10) as u8)?;
    out.push(b'0' + (number % 10) as u8)?;
    Ok(())
}

/// Appends a round as seconds.
fn push_stamp(out: &mut Vec<u8>, round: u64) -> Result<(), AllocError>
    ensures { OnOk result (out.new.items ≡ out.old.items ++ stamp_word round) }
{
    out.extend_from_slice("(".as_bytes())?;
    push_decimal(out, round / 1000)?;
    out.extend_from_slice(".".as_bytes())?;
    push_three(out, round % 1000)?;
    out.extend_from_slice("000)".as_bytes())
}

/// Appends bytes in hexadecimal digits, in upper case.
fn push_upper(alloc: Global, out: &mut Vec<u8>, bytes: &[u8]) -> Result<(), AllocError>
    ensures { OnOk result (out.new.items ≡ out.old.items ++ encode_upper bytes.now) }
{
    let digits = hex::encode_upper(alloc, bytes)?;
    out.extend_from_slice(digits.as_str().as_bytes())
}

/// Appends a frame's identifier and its bytes.
fn push_frame_word(alloc: Global, out: &mut Vec<u8>, frame: &Frame) -> Result<(), AllocError>
    ensures { OnOk result (out.new.items ≡ out.old.items ++ frame_word frame.now) }
{
    let identifier = frame.can.unwrap_or(0).to_be_bytes();
    push_upper(alloc, out, &identifier)?;
    out.extend_from_slice("#".as_bytes())?;
    push_upper(alloc, out, frame.bytes.as_slice())
}

/// Appends the line of a frame put on this link in a round.
fn push_line(
    alloc: Global,
    out: &mut Vec<u8>,
    link: &str,
    round: u64,
    frame: &Frame,
) -> Result<(), AllocError>
    ensures { OnOk result (out.new.items ≡ out.old.items ++ ended_line (frame_line link.now round frame.now)) }
{
    push_stamp(out, round)?;
    out.push(b' ')?;
    out.extend_from_slice(link.as_bytes())?;
    out.push(b' ')?;
    push_frame_word(alloc, out, frame)?;
    out.push(b'\n')?;
    Ok(())
}

/// Appends what is written for a frame put on this link in a round.
fn push_frame(
    alloc: Global,
    out: &mut Vec<u8>,
    form: Form,
    link: &str,
    round: u64,
    frame: &Frame,
) -> Result<(), AllocError>
    ensures { OnOk result (out.new.items ≡ out.old.items ++ written form link.now round frame.now) }
{
    match form {
        Form::Kiss => out.extend_from_slice(frame.bytes.as_slice()),
        Form::Candump => push_line(alloc, out, link, round, frame),
    }
}

/// The frame that a turn put on a link, if it did.
fn put_on(entry: &Entry) -> Option<&Frame>
    ensures { option_map (λ frame. frame.now) result ≡ put_on entry.now.op entry.now.answer }
{
    match (&entry.op, &entry.answer) {
        (OpShown::Push(QueueId::Tx(_), ItemShown::Frame(frame)), AnswerShown::Pushed) => {
            Some(frame)
        }
        _ => None,
    }
}

/// Appends what is written for a turn.
fn push_entry(
    alloc: Global,
    out: &mut Vec<u8>,
    form: Form,
    link: &str,
    entry: &Entry,
) -> Result<(), AllocError>
    ensures { OnOk result (out.new.items ≡ out.old.items ++ written_for form link.now entry.now) }
{
    match put_on(entry) {
        Some(frame) => push_frame(alloc, out, form, link, entry.time, frame),
        None => Ok(()),
    }
}

/// Appends what is written for the turns of a log.
fn push_log(
    alloc: Global,
    out: &mut Vec<u8>,
    form: Form,
    link: &str,
    log: &Log,
) -> Result<(), AllocError>
    ensures { OnOk result (out.new.items ≡ out.old.items ++ flat_map (written_for form link.now) log.now.entries) }
{
    let mut index = 0;
    while index < log.len() {
        push_entry(alloc, out, form, link, &log.entry(index))?;
        index += 1;
    }
    Ok(())
}

/// Appends what is written for a party's turns, where it is the interface at this end.
fn push_party(
    alloc: Global,
    out: &mut Vec<u8>,
    form: Form,
    link: &str,
    end: End,
    party: &PartyLog,
) -> Result<(), AllocError>
    ensures { OnOk result (out.new.items ≡ out.old.items ++ written_by form link.now end party.now) }
{
    if is_iface_at(party.who, end) {
        push_log(alloc, out, form, link, &party.log)
    } else {
        Ok(())
    }
}

/// Appends what is written for the turns of those among these parties that are the interface at this end.
fn push_parties(
    alloc: Global,
    out: &mut Vec<u8>,
    form: Form,
    link: &str,
    end: End,
    parties: &[PartyLog],
) -> Result<(), AllocError>
    ensures { OnOk result (out.new.items ≡ out.old.items ++ flat_map (written_by form link.now end) parties.now) }
{
    for party in parties {
        push_party(alloc, out, form, link, end, party)?;
    }
    Ok(())
}

#[tactic(auto, using(crate::proofs::Walking::exported_is))]
/// The frames that an end of the link of this name put on it, in order: their bytes one after the other, or a line for each.
pub fn exported(
    alloc: Global,
    form: Form,
    link: &str,
    end: End,
    run: &Record,
) -> Result<Vec<u8>, AllocError>
    ensures { IfOk result (λ bytes. bytes.items ≡ exported form link.now end run.now) }
{
    let mut out = Vec::new(alloc);
    push_parties(alloc, &mut out, form, link, end, run.parties.as_slice())?;
    Ok(out)
}
