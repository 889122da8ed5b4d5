//! The frames of one packet, made one at a time.

ghost use Rattle.std.specs.Prelude.{◌≡◌, ◌<◌, ◌≤◌, drop, length};
ghost use Rattle.csp_can.specs.Frames.{written};
ghost use Rattle.csp_can.specs.Fragments.{more_frame};

use crate::frames::{CanFrame, MAX_DATA, copied};
use crate::identifiers::{Identifier, Kind};
use arrayvec::ArrayVec;
use csp_base::MAX_PAYLOAD;
use std::marker::Model;

/// The frames of a packet that are still to be sent. Contracts see it as their list.
/// It keeps a copy of the payload.
#[derive(Drop)]
pub struct Fragments {
    /// The BEGIN frame, until it is given.
    pub(crate) first: Option<CanFrame>,
    /// What every frame's identifier has but for kind and remain.
    pub(crate) head: Identifier,
    /// How many MORE frames are still to come: at most 255.
    pub(crate) left: u8,
    pub(crate) payload: ArrayVec<u8, MAX_PAYLOAD>,
    /// How many payload bytes the frames given have carried.
    pub(crate) given: usize,
}

impl Model for Fragments {
    ghost use Rattle.std.specs.Prelude.{List};
    ghost use Rattle.csp_can.specs.declared.frames.CanFrame.{CanFrame};

    ghost Value = { List CanFrame };

    ghost use Rattle.csp_can.specs.ToCome.{frames_to_come, IsCutter};

    ghost view = { frames_to_come };

    ghost invariant = { IsCutter };
}

impl Fragments {
    ghost use Rattle.std.specs.Prelude.{[], ◌∷◌, ◌<◌, ◌≤◌, ◌≡◌, ◌↔◌, IsTrue, length, drop, map};
    ghost use Rattle.csp_can.specs.Frames.{written};
    ghost use Rattle.csp_can.specs.Fragments.{more_frames};

    /// The BEGIN frame, and then as many MORE frames as its `head` says remain, for what of the payload
    /// comes after the `given` bytes in it.
    pub(crate) fn new(begin: CanFrame, head: Identifier, payload: &[u8], given: usize) -> Fragments
        requires id { head.id < 1024 }
        requires fits { length payload.now ≤ MAX_PAYLOAD }
        requires given { given ≤ length payload.now }
        ensures frames { result
            ≡ begin ∷ map written (more_frames head head.remain (drop given payload.now)) }
    {
        let left = head.remain;
        Fragments {
            first: Some(begin),
            head,
            left,
            payload: copied(payload),
            given,
        }
    }

    /// No frame is still to come.
    pub fn is_empty(&self) -> bool
        ensures { IsTrue result ↔ (self.now ≡ []) }
    {
        self.first.is_none() && self.left == 0
    }
}

impl Iterator for Fragments {
    ghost use Rattle.std.specs.Iterator.{YieldsFirst, item_count};

    type Item = CanFrame;

    ghost next_gives = { YieldsFirst (λ s. s) };

    ghost remaining = { item_count (λ s. s) };

    fn next(&mut self) -> Option<CanFrame> {
        match self.first.take() {
            Some(frame) => Some(frame),
            None if self.left == 0 => None,
            None => {
                self.left -= 1;
                let frame = more_frame(&self.head, self.left, &self.payload, self.given);
                self.given += frame.bytes.len();
                Some(frame)
            }
        }
    }
}

/// The MORE frame of what is left of a payload, after which `remain` frames come.
fn more_frame(head: &Identifier, remain: u8, payload: &[u8], given: usize) -> CanFrame
    requires id { head.now.id < 1024 }
    requires given { given ≤ length payload.now }
    ensures { result ≡ written (more_frame head.now remain (drop given payload.now)) }
{
    let rest = &payload[given..];
    let head = Identifier {
        kind: Kind::More,
        remain,
        ..*head
    };
    CanFrame {
        id: head.encode(),
        bytes: copied(&rest[..rest.len().min(MAX_DATA)]),
    }
}
