//! The division by a register of 32 bits, which is still to be added to the next four bytes.
//!
//! A long message goes through it in blocks of sixteen bytes. What is left of a word of a block is not added to the word
//! after it, but to the same word of the next block, so that the four words of a block do not wait for each other.

ghost use Rattle.std.specs.Prelude.{◌≡◌, ◌≤◌, ◌<◌, ◌+◌, ◌*◌, ◌^◌, ◌%◌, ℕ, bit_xor, List, length};
ghost use Rattle.csp_crc.specs.Bits.{number_of, message_bits};
ghost use Rattle.csp_crc.specs.Register.{places, left_after, left_of_blocks};

use crate::tables::{after_block, after_byte};

/// The bytes of a block.
const BLOCK: usize = 16;

/// What is left of a register after some bytes.
pub(crate) fn after_bytes(register: u32, bytes: &[u8]) -> u32
    ensures { result ≡ left_after register bytes.now }
{
    let (blocks, rest) = bytes.as_chunks::<BLOCK>();
    let Some((last, front)) = blocks.split_last() else {
        return byte_by_byte(register, rest);
    };
    let sum = with_block(after_blocks(register, front), last);
    byte_by_byte(byte_by_byte(0, &sum.to_le_bytes()), rest)
}

// What is to be added to the sixteen bytes after some blocks. At least the places of three words must be left then.
fn after_blocks(register: u32, blocks: &[[u8; BLOCK]]) -> u128
    ensures { (places_left later : ℕ) → 96 ≤ places_left → left_of_blocks register blocks.now places_left later ≡ places places_left (bit_xor result later) }
{
    let mut sum = u128::from(register);
    for block in blocks {
        sum = carried(with_block(sum, block));
    }
    sum
}

// A block with what was to be added to it.
fn with_block(sum: u128, block: &[u8; BLOCK]) -> u128
    ensures sum { result ≡ bit_xor sum (number_of (message_bits block.now)) }
    ensures range { number_of (message_bits block.now) < 2 ^ 128 }
{
    let bytes = *block;
    sum ^ u128::from_le_bytes(bytes)
}

// What is to be added to the next block, where this is the sum of a block and what was to be added to it.
fn carried(sum: u128) -> u128
    ensures { (places_left later : ℕ) → 96 ≤ places_left → places (128 + places_left) (bit_xor sum (later * 2 ^ 128)) ≡ places places_left (bit_xor result later) }
{
    let first = u128::from(after_block(lowest_word(sum)));
    let second = u128::from(after_block(lowest_word(sum >> 32)));
    let third = u128::from(after_block(lowest_word(sum >> 64)));
    let fourth = u128::from(after_block(lowest_word(sum >> 96)));
    first ^ (second << 32 ^ (third << 64 ^ fourth << 96))
}

fn lowest_word(sum: u128) -> u32
    ensures { result ≡ sum % 2 ^ 32 }
{
    (sum & 0xFFFF_FFFF) as u32
}

fn byte_by_byte(register: u32, bytes: &[u8]) -> u32
    ensures { result ≡ left_after register bytes.now }
{
    let mut register = register;
    for &byte in bytes {
        let sum = register ^ u32::from(byte);
        register = (sum >> 8) ^ after_byte((sum & 0xFF) as u8);
    }
    register
}
