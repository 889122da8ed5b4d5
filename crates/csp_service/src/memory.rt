//! The memory that requests read and write.

ghost use Rattle.std.specs.Prelude.{◌≡◌, ◌+◌, ◌≤◌, [], length};
ghost use Rattle.csp_service.specs.Answers.{outcome, overwritten, peeked, poked, with_services};
ghost use Rattle.csp_service.specs.Facts.{PlainFacts};

use crate::facts::{MEMORY, Services};
use crate::{Served, ServiceError};
use arrayvec::ArrayVec;
use csp_cmp::{CmpReply, CmpRequest, MAX_CHUNK, peek_reply, same_reply};

/// Reads memory.
pub(crate) fn peek(addr: u32, len: u8, services: &Services, out: &mut CmpReply) -> Served
    requires empty { out.old.items ≡ [] }
    requires few { len ≤ MAX_CHUNK }
    ensures { (facts : PlainFacts) → outcome result out.new.items (with_services facts services.now) ≡ peeked addr len (with_services facts services.now) }
{
    let start = addr as usize;
    let end = start + usize::from(len);
    if end > MEMORY {
        return Served::Refused(ServiceError::BadAddress);
    }
    peek_reply(addr, &services.memory[start..end], out);
    Served::Reply
}

/// Writes memory.
pub(crate) fn poke(
    addr: u32,
    bytes: ArrayVec<u8, MAX_CHUNK>,
    services: &mut Services,
    out: &mut CmpReply,
) -> Served
    requires empty { out.old.items ≡ [] }
    ensures value { (facts : PlainFacts) → outcome result out.new.items (with_services facts services.new) ≡ poked addr bytes (with_services facts services.old) }
    ensures kept { (error : ServiceError) → result ≡ Served.Refused error → services.new ≡ services.old }
{
    if addr as usize + bytes.len() > MEMORY {
        return Served::Refused(ServiceError::BadAddress);
    }
    overwrite(
        services.memory.as_mut_slice(),
        addr as usize,
        bytes.as_slice(),
    );
    same_reply(&CmpRequest::Poke { addr, bytes }, out);
    Served::Reply
}

/// Puts bytes into memory from an address on.
fn overwrite(memory: &mut [u8], addr: usize, bytes: &[u8])
    requires { addr + length bytes.now ≤ length memory.old }
    ensures { memory.new ≡ overwritten memory.old addr bytes.now }
{
    memory[addr..addr + bytes.len()].copy_from_slice(bytes);
}
