//! Header words: `header read WORD`, `header write FIELDS`. The fields are priority, source, destination,
//! destination port, source port, and then the flags: the three bits that are carried on, fragmentation, HMAC, XTEA,
//! the reliable transport and the checksum.

use bitflags::Flags;
use csp_base::Prio;
use csp_cases::Case;
use csp_header::{FlagSet, Header};

/// The flags that are told one by one, in their order.
const FLAGS: [FlagSet; 5] = [
    FlagSet::FRAG,
    FlagSet::HMAC,
    FlagSet::XTEA,
    FlagSet::RDP,
    FlagSet::CRC32,
];

/// Tells the fields of a word, or the word of fields.
pub(super) fn answer(case: &mut Case) {
    match case.word() {
        "read" => {
            let header = Header::decode(case.hex_word());
            fields(case, header);
        }
        "write" => {
            let header = written(case);
            case.tell_word(header.encode());
        }
        _ => case.misread(),
    }
}

/// Tells the fields of a header, one after the other.
fn fields(case: &mut Case, header: Header) {
    let (prio, src, dst) = (header.prio.number(), header.src.get(), header.dst.get());
    let (dport, sport, flags) = (header.dport.get(), header.sport.get(), header.flags);
    let carried = flags.bits() >> 5;
    write!(case, "{prio} {src} {dst} {dport} {sport} {carried}");
    for flag in FLAGS {
        case.tell(if flags.contains(flag) { " 1" } else { " 0" });
    }
}

/// The header of fields.
fn written(case: &mut Case) -> Header {
    Header {
        prio: Prio::new(case.below(4)).unwrap(),
        src: case.addr(),
        dst: case.addr(),
        dport: case.port(),
        sport: case.port(),
        flags: flags(case),
    }
}

/// The flags of a header.
fn flags(case: &mut Case) -> FlagSet {
    let mut bits = case.below(8) << 5;
    for name in ["FRAG", "HMAC", "XTEA", "RDP", "CRC32"] {
        if case.below(2) == 1 {
            bits |= named(case, name);
        }
    }
    FlagSet(bits)
}

/// The flag of this name.
fn named(case: &mut Case, name: &str) -> u8 {
    match FlagSet::from_name(name) {
        Some(flag) => flag.bits(),
        None => {
            case.misread();
            0
        }
    }
}
