//! Reads requests.

ghost use Rattle.std.specs.Prelude.{◌≡◌, ◌+◌, ◌≤◌, ◌<◌, ◌^◌, Some, length, take, drop, IfOk};
ghost use Rattle.csp_cmp.specs.Reading.{by_code, chunk_of, count_or_zero, decoded, name_at, need_of, number_at, read_as};
ghost use Rattle.csp_cmp.specs.Requests.{Begins, chunk_in, code_in, fields_of, request_bytes};

use crate::{CmpError, CmpRequest, Code, NAME_LEN};
use arrayvec::ArrayVec;

/// The type of a request.
pub const REQUEST: u8 = 0x00;

/// The most bytes of memory that one request asks for or brings.
pub const MAX_CHUNK: usize = 200;

/// The request that these bytes are. Bytes behind those that it needs are ignored.
pub fn decode(bytes: &[u8]) -> Result<CmpRequest, CmpError>
    ensures value { result ≡ decoded bytes.now }

    // It stands at the front of the bytes, as a request is written.
    ensures whole { IfOk result (λ r. Begins bytes.now (request_bytes r)) }
    ensures few { IfOk result (λ r. chunk_in r ≤ MAX_CHUNK) }
{
    let [kind, number, ..] = bytes else {
        return Err(CmpError::Short);
    };
    if *kind != REQUEST {
        return Err(CmpError::BadType(*kind));
    }
    match Code::of(*number) {
        Some(code) => decode_as(code, *number, bytes),
        None => Err(CmpError::BadCode(*number)),
    }
}

/// The request of this code that these bytes are.
fn decode_as(code: Code, number: u8, bytes: &[u8]) -> Result<CmpRequest, CmpError>
    ensures value { result ≡ by_code number (Some code) bytes.now }
    ensures code { IfOk result (λ r. code_in r ≡ code) }
    ensures fields { IfOk result (λ r. Begins (drop 2 bytes.now) (fields_of r)) }
    ensures few { IfOk result (λ r. chunk_in r ≤ MAX_CHUNK) }
{
    if let Some(count) = chunk_len(code, bytes)
        && usize::from(count) > MAX_CHUNK
    {
        return Err(CmpError::BadCount(count));
    }
    let need = need(code, bytes);
    if bytes.len() < need {
        return Err(CmpError::BadLength { need: need as u32 });
    }
    Ok(read(code, bytes))
}

/// How many bytes of memory a request of this code says that it asks for or brings, where it says so.
fn chunk_len(code: Code, bytes: &[u8]) -> Option<u8>
    ensures { result ≡ chunk_of code bytes.now }
{
    match code {
        Code::Peek | Code::Poke => bytes.get(6).copied(),
        Code::Ident | Code::RouteSet | Code::Stats | Code::Clock => None,
    }
}

/// The same, or 0 where it does not say.
fn chunk_count(code: Code, bytes: &[u8]) -> u8
    ensures { result ≡ count_or_zero (chunk_of code bytes.now) }
{
    chunk_len(code, bytes).unwrap_or(0)
}

/// How many bytes a request of this code needs, its type and its code with them.
fn need(code: Code, bytes: &[u8]) -> usize
    ensures value { result ≡ need_of code bytes.now }
    ensures small { result < 2 ^ 32 }
{
    match code {
        Code::Ident => 2,
        Code::RouteSet => 15,
        Code::Stats => 13,
        Code::Peek => 7,
        Code::Poke => 7 + usize::from(chunk_count(code, bytes)),
        Code::Clock => 10,
    }
}

/// The request of a code, of bytes that are as many as it needs.
fn read(code: Code, bytes: &[u8]) -> CmpRequest
    requires few { count_or_zero (chunk_of code bytes.now) ≤ MAX_CHUNK }
    requires whole { need_of code bytes.now ≤ length bytes.now }
    ensures value { result ≡ read_as code bytes.now }
    ensures code { code_in result ≡ code }
    ensures few { chunk_in result ≤ MAX_CHUNK }
{
    match code {
        Code::Ident => CmpRequest::Ident,
        Code::RouteSet => CmpRequest::RouteSet {
            dest: bytes[2],
            via: bytes[3],
            iface: read_name(bytes, 4),
        },
        Code::Stats => CmpRequest::Stats {
            iface: read_name(bytes, 2),
        },
        Code::Peek => CmpRequest::Peek {
            addr: read_number(bytes, 2),
            len: chunk_count(code, bytes),
        },
        Code::Poke => CmpRequest::Poke {
            addr: read_number(bytes, 2),
            bytes: read_chunk(bytes),
        },
        Code::Clock => CmpRequest::Clock {
            sec: read_number(bytes, 2),
            nsec: read_number(bytes, 6),
        },
    }
}

/// The number of 32 bits that begins at this byte.
fn read_number(bytes: &[u8], at: usize) -> u32
    requires { at + 4 ≤ length bytes.now }
    ensures { result ≡ number_at bytes.now at }
{
    match bytes[at..].split_first_chunk::<4>() {
        Some((number, _)) => u32::from_be_bytes(*number),
        None => unreachable!(),
    }
}

/// The name that begins at this byte.
fn read_name(bytes: &[u8], at: usize) -> [u8; NAME_LEN]
    requires { at + NAME_LEN ≤ length bytes.now }
    ensures { result ≡ name_at bytes.now at }
{
    match bytes[at..].split_first_chunk::<NAME_LEN>() {
        Some((name, _)) => *name,
        None => unreachable!(),
    }
}

/// The bytes of memory that a poke brings.
fn read_chunk(bytes: &[u8]) -> ArrayVec<u8, MAX_CHUNK>
    requires few { count_or_zero (chunk_of Code.Poke bytes.now) ≤ MAX_CHUNK }
    requires whole { need_of Code.Poke bytes.now ≤ length bytes.now }
    ensures { result.items ≡ take (count_or_zero (chunk_of Code.Poke bytes.now)) (drop 7 bytes.now) }
{
    let count = usize::from(chunk_count(Code::Poke, bytes));
    let mut chunk = ArrayVec::new();
    chunk.try_extend_from_slice(&bytes[7..7 + count]).unwrap();
    chunk
}
