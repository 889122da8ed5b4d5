//! Buffers for the tables. Their memory goes with the process.

ghost use Rattle.std.specs.Prelude.{◌≡◌, [], IfSome};

use csp_buffer::{Buffer, Memory};
use std::alloc::Global;
use std::mem::ManuallyDrop;

/// How many buffers are made at a time.
const COUNT: u16 = 64;

/// The buffers that are left.
#[derive(Drop)]
pub(crate) struct Supply {
    alloc: Global,
    buffers: ManuallyDrop<Vec<Buffer>>,
}

impl Supply {
    /// No buffers yet.
    pub(crate) fn new(alloc: Global) -> Supply {
        Supply {
            alloc,
            buffers: unsafe { ManuallyDrop::new_unchecked(Vec::new(alloc)) },
        }
    }

    /// A cleared buffer, while there is memory for one.
    pub(crate) fn take(&mut self) -> Option<Buffer>
        ensures { IfSome result (λ b. b.picture.payload ≡ []) }
    {
        if self.buffers.is_empty() {
            let (memory, buffers) = Memory::open(self.alloc, COUNT).ok()?;
            leave(memory);
            self.buffers = unsafe { ManuallyDrop::new_unchecked(buffers) };
        }
        let mut buffer = self.buffers.pop()?;
        buffer.clear();
        Some(buffer)
    }
}

/// Leaves what a case is done with where it is.
pub(crate) fn leave<T>(value: T) {
    let _left = unsafe { ManuallyDrop::new_unchecked(value) };
}
