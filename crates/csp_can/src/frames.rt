//! Frames of a CAN bus.

ghost use Rattle.std.specs.Prelude.{◌≡◌, ◌≤◌, length};

use arrayvec::ArrayVec;

/// The most data bytes that a frame carries.
pub const MAX_DATA: usize = 8;

/// A frame of a CAN bus: its identifier of 29 bits and its data bytes.
#[derive(Drop)]
pub struct CanFrame {
    pub id: u32,
    pub bytes: ArrayVec<u8, MAX_DATA>,
}

/// A list of at most `N` bytes with these.
pub(crate) fn copied<const N: usize>(bytes: &[u8]) -> ArrayVec<u8, N>
    requires { length bytes.now ≤ N }
    ensures { result.items ≡ bytes.now }
{
    let mut list = ArrayVec::new();
    list.try_extend_from_slice(bytes).unwrap();
    list
}
