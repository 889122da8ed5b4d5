//! What the rules read off a packet's header.

ghost use Rattle.std.specs.Prelude.{◌≡◌};
ghost use Rattle.csp_ports.specs.Asking.{is_reliable};
ghost use Rattle.csp_stack.specs.Readings.{is_checked, is_here, is_secured, lacks};

use bitflags::Flags;
use csp_base::{Addr, BROADCAST};
use csp_header::{FlagSet, Header};

/// Whether a packet is for the node of this address: by its own address, or by broadcast.
pub fn is_packet_here(addr: Addr, header: &Header) -> bool
    ensures { result ≡ is_here addr header.now }
{
    let dst = header.dst.get();
    dst == addr.get() || dst == BROADCAST
}

/// Whether a packet is authenticated (HMAC) or encrypted (XTEA).
pub fn is_packet_secured(header: &Header) -> bool
    ensures { result ≡ is_secured header.now }
{
    header.flags.contains(FlagSet::HMAC) || header.flags.contains(FlagSet::XTEA)
}

/// Whether a packet's flag says that it has a checksum (CRC32).
pub fn is_packet_checked(header: &Header) -> bool
    ensures { result ≡ is_checked header.now }
{
    header.flags.contains(FlagSet::CRC32)
}

/// Whether a packet is of the reliable transport (RDP).
pub fn is_packet_reliable(header: &Header) -> bool
    ensures { result ≡ is_reliable header.now.flags.0 }
{
    header.flags.contains(FlagSet::RDP)
}

/// Whether these flags are those of the reliable transport (RDP).
pub fn are_flags_reliable(flags: u8) -> bool
    ensures { result ≡ is_reliable flags }
{
    FlagSet(flags).contains(FlagSet::RDP)
}

/// Whether a packet lacks a flag that its port needs, where an application has bound the port.
pub fn is_packet_lacking(owner: Option<(u8, u8)>, header: &Header) -> bool
    ensures { result ≡ lacks owner header.now }
{
    match owner {
        Some((_, need)) => !header.flags.contains(FlagSet(need)),
        None => false,
    }
}
