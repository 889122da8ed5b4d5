//! The summary of a report.

ghost use Rattle.std.specs.Prelude.{◌≡◌, ◌++◌, ◌∷◌, [], map, filter, count_by, codes, if◌then◌else◌, OnOk, IfOk};
ghost use Rattle.std.specs.Fmt.{decimal};
ghost use Rattle.csp_report.specs.Summary.{begins, gen_line, took_line, last_two, joined, summary_lines, summary};
ghost use Rattle.csp_report.specs.PlacesAddUp.{PlacesAddUp};

use csp_text::{lines, push_number};
use std::alloc::{AllocError, Global};

/// Appends a line.
fn push_line(out: &mut Vec<u8>, line: &[u8]) -> Result<(), AllocError>
    ensures { OnOk result (out.new.items ≡ out.old.items ++ joined (line.now ∷ [])) }
{
    out.extend_from_slice(line)?;
    out.push(b'\n')?;
    Ok(())
}

/// Appends a line of a text and a number.
fn push_count(alloc: Global, out: &mut Vec<u8>, text: &str, count: u64) -> Result<(), AllocError>
    ensures { OnOk result (out.new.items ≡ out.old.items ++ joined ((text.now ++ decimal count) ∷ [])) }
{
    let mut line = String::new(alloc);
    line.push_str(text)?;
    push_number(&mut line, count)?;
    push_line(out, line.as_str().as_bytes())
}

/// Appends this line, if it begins so.
fn push_if(out: &mut Vec<u8>, line: &[u8], front: &[u8]) -> Result<(), AllocError>
    ensures { OnOk result (out.new.items ≡ out.old.items ++ joined (if begins front.now line.now then line.now ∷ [] else [])) }
{
    if line.starts_with(front) {
        push_line(out, line)
    } else {
        Ok(())
    }
}

/// Appends those of these lines that begin so.
fn push_those(out: &mut Vec<u8>, lines: &[&[u8]], front: &[u8]) -> Result<(), AllocError>
    ensures { OnOk result (out.new.items ≡ out.old.items ++ joined (filter (begins front.now) (map (λ line. line.now) lines.now))) }
{
    for line in lines {
        push_if(out, *line, front)?;
    }
    Ok(())
}

/// How many of these lines begin so.
fn count_those(lines: &[&[u8]], front: &[u8]) -> usize
    ensures { result ≡ count_by (begins front.now) (map (λ line. line.now) lines.now) }
{
    lines.iter().filter(|line| line.starts_with(front)).count()
}

/// Appends these lines.
fn push_all(out: &mut Vec<u8>, lines: &[&[u8]]) -> Result<(), AllocError>
    ensures { OnOk result (out.new.items ≡ out.old.items ++ joined (map (λ line. line.now) lines.now)) }
{
    for line in lines {
        push_line(out, *line)?;
    }
    Ok(())
}

/// The last two of these lines, or all where they are fewer.
fn last_two<'a, 'b>(lines: &'a [&'b [u8]]) -> &'a [&'b [u8]]
    ensures { map (λ line. line.now) result.now ≡ last_two (map (λ line. line.now) lines.now) }
{
    &lines[lines.len().saturating_sub(2)..]
}

/// Appends the lines of the summary of a report with these lines.
fn push_lines(
    alloc: Global,
    out: &mut Vec<u8>,
    packets: u32,
    lines: &[&[u8]],
) -> Result<(), AllocError>
    ensures { OnOk result (out.new.items ≡ out.old.items ++ joined (summary_lines packets (map (λ line. line.now) lines.now))) }
{
    push_count(alloc, out, "csp-gen ", u64::from(packets))?;
    push_those(out, lines, b"end ")?;
    push_those(out, lines, b"node ")?;
    let count = count_those(lines, b"took ");
    push_count(alloc, out, "took ", count as u64)?;
    push_all(out, last_two(lines))?;
    Ok(())
}

/// The summary of the report of a generated scenario in which so many packets were to be sent: how the run ended,
/// where each node's buffers were, how many payloads were taken, and the report's two counts. Each line ends with
/// a line feed.
pub fn summary(alloc: Global, packets: u32, report: &[u8]) -> Result<Vec<u8>, AllocError>
    ensures bytes { IfOk result (λ bytes. bytes.items ≡ summary packets report.now) }
    ensures places { IfOk result (λ bytes. PlacesAddUp report.now → PlacesAddUp bytes.items) }
{
    let lines = lines(alloc, report)?;
    let mut out = Vec::new(alloc);
    push_lines(alloc, &mut out, packets, lines.as_slice())?;
    Ok(out)
}
