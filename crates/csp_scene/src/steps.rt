//! The steps that lines state, by their words.

ghost use Rattle.std.specs.Prelude.{◌≡◌, ◌≤◌, map, IfSome};
ghost use Rattle.std.specs.Option.{unwrap_or};
ghost use Rattle.csp_base.specs.Priority.{prio_of};
ghost use Rattle.csp_app.specs.Placing.{plain_step};
ghost use Rattle.csp_text.specs.Hexadecimal.{bytes_of};
ghost use Rattle.csp_scene.specs.Arguments.{word_at, setting};
ghost use Rattle.csp_scene.specs.Ranges.{AreFlags, AreConnectFlags, IsOwnPort, IsStep};
ghost use Rattle.csp_scene.specs.Steps.{flag_of, flags_of, connect_flags, bind_step, connect_step, send_step, burst_step, blob_step, raw_step, recv_step, collect_step, close_step, wait_step};
ghost use Rattle.csp_scene.specs.Kept.{Fits, FitsShape};

use crate::arguments::{has_keyword, number_at, setting, word_at};
use crate::limits::{CRC_FLAG, DEFAULT_PRIO, FRAG_FLAG, MAX_DEST, MAX_PORT, MAX_PRIO, RDP_FLAG};
use crate::table::{Form, Keyword, Part};
use csp_app::Step;
use csp_base::{Addr, Port, Prio};
use csp_text::hex_word;

/// A flag of the header, where the line has the word for it.
fn flag_of(keyword: Keyword, flag: u8, shape: &[Part]) -> u8
    ensures value { result ≡ flag_of keyword flag shape.now }
    ensures range { result ≤ flag }
{
    if has_keyword(keyword, shape) { flag } else { 0 }
}

/// The flags of the header for which the line has words.
fn flags_of(shape: &[Part]) -> u8
    ensures value { result ≡ flags_of shape.now }
    ensures range { AreFlags result }
{
    flag_of(Keyword::Crc, CRC_FLAG, shape) + flag_of(Keyword::Rdp, RDP_FLAG, shape)
}

/// Those of a connection's packets: with the word `frag` they are pieces of blobs.
fn connect_flags(shape: &[Part]) -> u8
    ensures value { result ≡ connect_flags shape.now }
    ensures range { AreConnectFlags result }
{
    if has_keyword(Keyword::Frag, shape) {
        flags_of(shape) + FRAG_FLAG
    } else {
        flags_of(shape)
    }
}

/// The port with this number.
fn port_of(number: u32) -> Port
    requires { number ≤ MAX_PORT }
    ensures { result ≡ number }
{
    match Port::new(number as u8) {
        Some(port) => port,
        None => unreachable!(),
    }
}

/// The address with this number.
fn dest_of(number: u32) -> Addr
    requires { number ≤ MAX_DEST }
    ensures { result ≡ number }
{
    match Addr::new(number as u8) {
        Some(addr) => addr,
        None => unreachable!(),
    }
}

/// The priority with this number.
fn prio_of(number: u32) -> Prio
    requires { number ≤ MAX_PRIO }
    ensures { result ≡ prio_of number }
{
    Prio::new(number as u8).unwrap()
}

/// The priority that a line gives.
fn given_prio(shape: &[Part], args: &[&[u8]]) -> Prio
    requires { FitsShape Form.Connect shape.now (map (λ word. word.now) args.now) }
    ensures { result ≡ prio_of (unwrap_or (setting Keyword.Prio shape.now (map (λ word. word.now) args.now)) DEFAULT_PRIO) }
{
    prio_of(setting(Form::Connect, Keyword::Prio, shape, args).unwrap_or(DEFAULT_PRIO))
}

/// The port that a line wants as the connection's own.
fn own_port(shape: &[Part], args: &[&[u8]]) -> Option<Port>
    requires { FitsShape Form.Connect shape.now (map (λ word. word.now) args.now) }
    ensures value { result ≡ setting Keyword.From shape.now (map (λ word. word.now) args.now) }
    ensures range { IfSome result IsOwnPort }
{
    match setting(Form::Connect, Keyword::From, shape, args) {
        Some(number) => Some(port_of(number)),
        None => None,
    }
}

/// The step of a `bind` line.
pub(crate) fn bind_step(shape: &[Part], args: &[&[u8]]) -> Step<'static>
    requires { Fits Form.Bind (map (λ word. word.now) args.now) }
    ensures value { plain_step result ≡ bind_step shape.now (map (λ word. word.now) args.now) }
    ensures kept { IsStep (plain_step result) }
{
    Step::Bind {
        port: port_of(number_at(Form::Bind, args, 0)),
        need: flags_of(shape),
    }
}

/// The step of a `connect` line.
pub(crate) fn connect_step(shape: &[Part], args: &[&[u8]]) -> Step<'static>
    requires fits { Fits Form.Connect (map (λ word. word.now) args.now) }
    requires shape { FitsShape Form.Connect shape.now (map (λ word. word.now) args.now) }
    ensures value { plain_step result ≡ connect_step shape.now (map (λ word. word.now) args.now) }
    ensures kept { IsStep (plain_step result) }
{
    Step::Connect {
        slot: number_at(Form::Connect, args, 0) as u8,
        dest: dest_of(number_at(Form::Connect, args, 1)),
        port: port_of(number_at(Form::Connect, args, 2)),
        prio: given_prio(shape, args),
        flags: connect_flags(shape),
        from: own_port(shape, args),
    }
}

/// The step of a `send` line.
pub(crate) fn send_step<'a>(args: &[&[u8]], bytes: &'a [u8]) -> Step<'a>
    requires bytes { bytes.now ≡ bytes_of (word_at (map (λ word. word.now) args.now) 1) }
    requires fits { Fits Form.Send (map (λ word. word.now) args.now) }
    ensures value { plain_step result ≡ send_step (map (λ word. word.now) args.now) }
    ensures kept { IsStep (plain_step result) }
{
    Step::Send {
        slot: number_at(Form::Send, args, 0) as u8,
        bytes,
    }
}

/// The step of a `burst` line.
pub(crate) fn burst_step(args: &[&[u8]]) -> Step<'static>
    requires { Fits Form.Burst (map (λ word. word.now) args.now) }
    ensures value { plain_step result ≡ burst_step (map (λ word. word.now) args.now) }
    ensures kept { IsStep (plain_step result) }
{
    Step::Burst {
        slot: number_at(Form::Burst, args, 0) as u8,
        count: number_at(Form::Burst, args, 1),
        len: number_at(Form::Burst, args, 2) as u16,
    }
}

/// The step of a `blob` line.
pub(crate) fn blob_step(args: &[&[u8]]) -> Step<'static>
    requires { Fits Form.Blob (map (λ word. word.now) args.now) }
    ensures value { plain_step result ≡ blob_step (map (λ word. word.now) args.now) }
    ensures kept { IsStep (plain_step result) }
{
    Step::Blob {
        slot: number_at(Form::Blob, args, 0) as u8,
        len: number_at(Form::Blob, args, 1),
        size: number_at(Form::Blob, args, 2) as u16,
    }
}

/// The step of a `raw` line.
pub(crate) fn raw_step<'a>(args: &[&[u8]], bytes: &'a [u8]) -> Step<'a>
    requires bytes { bytes.now ≡ bytes_of (word_at (map (λ word. word.now) args.now) 1) }
    requires fits { Fits Form.Raw (map (λ word. word.now) args.now) }
    ensures value { plain_step result ≡ raw_step (map (λ word. word.now) args.now) }
    ensures kept { IsStep (plain_step result) }
{
    Step::Raw {
        header: hex_word(word_at(args, 0)),
        bytes,
    }
}

/// The step of a `recv` line.
pub(crate) fn recv_step(shape: &[Part], args: &[&[u8]]) -> Step<'static>
    requires fits { Fits Form.Recv (map (λ word. word.now) args.now) }
    requires shape { FitsShape Form.Recv shape.now (map (λ word. word.now) args.now) }
    ensures value { plain_step result ≡ recv_step shape.now (map (λ word. word.now) args.now) }
    ensures kept { IsStep (plain_step result) }
{
    Step::Recv {
        slot: number_at(Form::Recv, args, 0) as u8,
        count: number_at(Form::Recv, args, 1),
        rounds: setting(Form::Recv, Keyword::For, shape, args),
    }
}

/// The step of a `collect` line.
pub(crate) fn collect_step(shape: &[Part], args: &[&[u8]]) -> Step<'static>
    requires fits { Fits Form.Collect (map (λ word. word.now) args.now) }
    requires shape { FitsShape Form.Collect shape.now (map (λ word. word.now) args.now) }
    ensures value { plain_step result ≡ collect_step shape.now (map (λ word. word.now) args.now) }
    ensures kept { IsStep (plain_step result) }
{
    Step::Collect {
        slot: number_at(Form::Collect, args, 0) as u8,
        count: number_at(Form::Collect, args, 1),
        rounds: setting(Form::Collect, Keyword::For, shape, args),
    }
}

/// The step of a `close` line.
pub(crate) fn close_step(args: &[&[u8]]) -> Step<'static>
    requires { Fits Form.Close (map (λ word. word.now) args.now) }
    ensures value { plain_step result ≡ close_step (map (λ word. word.now) args.now) }
    ensures kept { IsStep (plain_step result) }
{
    Step::Close {
        slot: number_at(Form::Close, args, 0) as u8,
    }
}

/// The step of a `wait` line.
pub(crate) fn wait_step(args: &[&[u8]]) -> Step<'static>
    requires { Fits Form.Wait (map (λ word. word.now) args.now) }
    ensures value { plain_step result ≡ wait_step (map (λ word. word.now) args.now) }
    ensures kept { IsStep (plain_step result) }
{
    Step::Wait {
        rounds: number_at(Form::Wait, args, 0),
    }
}
