//! What a program says on standard error.

ghost use Rattle.std.specs.Prelude.{◌≡◌, ◌++◌, ◌∷◌, ◌≤◌, ◌+◌, [], codes, length, OnOk, OnErr, IsErr};
ghost use Rattle.std.specs.Fmt.{decimal};
ghost use Rattle.std.specs.Io.KnownBytes.{Appends};
ghost use Rattle.arrayvec.specs.ArrayString.{array_string_len};
ghost use Rattle.csp_base.specs.Faults.{Rose};
ghost use Rattle.csp_base.specs.Transfer.{WrotePrefix};
ghost use Rattle.csp_bench.specs.Said.{line_by, said_by, word_of_kind, word_of_limit};

use crate::status::{LimitKind, Status};
use arrayvec::ArrayString;
use csp_base::{Failed, Sink, write_whole};
use csp_scene::SceneKind;

/// Room for what is said: the line of a limit, with a number of 20 digits, has at most 47 bytes.
const MAX_SAID: usize = 64;

/// The most bytes of a program's name.
pub const MAX_PROGRAM: usize = 10;

/// Says why the program of this name was not done, in one line, and nothing where it was done. No memory is taken.
pub fn say<E: Sink>(program: &str, status: Status, errors: &mut E) -> Result<(), Failed>
    requires { length program.now ≤ MAX_PROGRAM }
    ensures whole { OnOk result (Appends (E.written errors.old) (E.written errors.new) (said_by program.now status)) }
    ensures part { OnErr result (WrotePrefix (E.written errors.old) (E.written errors.new) (said_by program.now status)) }
    ensures fault { IsErr result → Rose (E.faults errors.old) (E.faults errors.new) }
    ensures steady { OnOk result (E.faults errors.new ≡ E.faults errors.old) }
{
    write_whole(errors, said(program, status).as_str().as_bytes())
}

/// The line that is said, with the line feed that ends it.
fn said(program: &str, status: Status) -> ArrayString<MAX_SAID>
    requires { length program.now ≤ MAX_PROGRAM }
    ensures { result.bytes ≡ said_by program.now status }
{
    match status {
        Status::Done => ArrayString::new(),
        Status::NoMemory => plain_line(program, "no memory"),
        Status::Words => plain_line(program, "bad words"),
        Status::ReadFault => plain_line(program, "read fault"),
        Status::WriteFault => plain_line(program, "write fault"),
        Status::Scene { line, kind } => refused_line(program, line, kind),
        Status::Limit { kind, number } => limit_line(program, kind, number),
    }
}

/// How each line begins: with the program's name.
fn begun(program: &str) -> ArrayString<MAX_SAID>
    requires { length program.now ≤ MAX_PROGRAM }
    ensures bytes { result.bytes ≡ program.now ++ codes ": " }
    ensures short { array_string_len result ≤ MAX_PROGRAM + 2 }
{
    let mut line = ArrayString::new();
    line.push_str(program);
    line.push_str(": ");
    line
}

/// The line of an answer that says no more than itself.
fn plain_line(program: &str, text: &str) -> ArrayString<MAX_SAID>
    requires name { length program.now ≤ MAX_PROGRAM }
    requires text { length text.now ≤ 20 }
    ensures { result.bytes ≡ line_by program.now text.now }
{
    let mut line = begun(program);
    line.push_str(text);
    line.push('\n');
    line
}

/// Appends the digits of a number.
fn push_digits(line: &mut ArrayString<MAX_SAID>, number: u64)
    requires { array_string_len line.old ≤ 30 }
    ensures bytes { line.new.bytes ≡ line.old.bytes ++ decimal number }
    ensures short { array_string_len line.new ≤ array_string_len line.old + 20 }
{
    let mut digits = itoa::Buffer::new();
    line.push_str(digits.format(number));
}

/// The line of a scenario that is refused at this line.
fn refused_line(program: &str, number: u32, kind: SceneKind) -> ArrayString<MAX_SAID>
    requires { length program.now ≤ MAX_PROGRAM }
    ensures { result.bytes ≡ line_by program.now (codes "line " ++ decimal number ++ codes ": " ++ word_of_kind kind) }
{
    let mut line = begun(program);
    line.push_str("line ");
    push_digits(&mut line, u64::from(number));
    line.push_str(": ");
    line.push_str(word_of_kind(kind));
    line.push('\n');
    line
}

/// The line of a limit that was reached.
fn limit_line(program: &str, kind: LimitKind, number: u64) -> ArrayString<MAX_SAID>
    requires { length program.now ≤ MAX_PROGRAM }
    ensures { result.bytes ≡ line_by program.now (codes "limit " ++ word_of_limit kind ++ codes " " ++ decimal number) }
{
    let mut line = begun(program);
    line.push_str("limit ");
    line.push_str(word_of_limit(kind));
    line.push_str(" ");
    push_digits(&mut line, number);
    line.push('\n');
    line
}

/// The word of what is wrong with a line.
fn word_of_kind(kind: SceneKind) -> &'static str
    ensures word { result.now ≡ word_of_kind kind }
    ensures short { length result.now ≤ 7 }
{
    match kind {
        SceneKind::Byte => "Byte",
        SceneKind::Long => "Long",
        SceneKind::Word => "Word",
        SceneKind::Place => "Place",
        SceneKind::Count => "Count",
        SceneKind::Choice => "Choice",
        SceneKind::Name => "Name",
        SceneKind::Number => "Number",
        SceneKind::Unknown => "Unknown",
        SceneKind::Twice => "Twice",
        SceneKind::Full => "Full",
        SceneKind::Missing => "Missing",
    }
}

/// The word of a limit.
fn word_of_limit(kind: LimitKind) -> &'static str
    ensures word { result.now ≡ word_of_limit kind }
    ensures short { length result.now ≤ 7 }
{
    match kind {
        LimitKind::Bytes => "Bytes",
        LimitKind::Entries => "Entries",
    }
}
