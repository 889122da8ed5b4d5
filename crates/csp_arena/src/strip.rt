//! Bytes in a row, apart from the `Vec` that they lie in. Raw memory is met here alone.

ghost use Rattle.std.specs.Prelude.{◌≡◌, ◌≢◌, ℕ, ◌+◌, ◌^◌, ◌<◌, ◌≤◌, List, ◌++◌, length, take, drop};
ghost use Rattle.std.specs.Vec.{with_items};
ghost use base.Fml.{ftrue, fex, fall, fwand, fsep, feq};
ghost use denote.RawPtr.{Ptr, ◌+ₚ◌};
ghost use Rattle.bytes.specs.Ownership.{Extent, extent_code, IsPlaced, run_owns};

use std::marker::{Model, Move, Owns};
use std_alloc::vec::{Lodged, lodge};

/// The bytes `items` at `ptr`, which nothing else can reach.
pub(crate) struct Strip {
    ghost ptr: { Ptr },
    ghost items: { List ℕ },
}

impl Model for Strip {
    ghost also_owns = { λ s. run_owns s.ptr s.items };
}

/// A `Vec` whose bytes are out as a strip. It waits for as many bytes at the same place.
pub(crate) struct Shell {
    vec: Vec<u8>,
}

impl Owns for Shell {
    ghost Value = { Extent };

    ghost coded = { extent_code };

    ghost shr_at = { λ _ _ _. ftrue };
}

impl Move for Shell {
    ghost own_val = { λ e vs. fex Inside (λ v. fsep (feq ℕ v.vec.len e.len) (fall (List ℕ) (λ xs. fwand (fsep (feq ℕ (length xs) e.len) (run_owns e.ptr xs)) (Fields.own_val (record { vec = with_items v.vec xs }) vs)))) };
}

// Its bytes are reached by nobody else.
unsafe impl Send for Strip {}

// A `&` to it shows nothing.
unsafe impl Send for Shell {}

unsafe impl Sync for Shell {}

/// Takes the bytes of `vec` out of it.
pub(crate) fn take_out(vec: Vec<u8>) -> (Strip, Shell)
    requires { 0 < vec.len }
    ensures { (result.0.ptr ≡ vec.ptr) × (result.0.items ≡ vec.items) × IsPlaced vec.ptr
        × (result.1.ptr ≡ vec.ptr) × (result.1.len ≡ vec.len) }
{
    (Strip {}, Shell { vec })
}

/// Puts the bytes back that `shell` waits for.
pub(crate) fn put_back(strip: Strip, shell: Shell) -> Vec<u8>
    requires { (strip.ptr ≡ shell.ptr) × (length strip.items ≡ shell.len) }
    ensures { result.items ≡ strip.items }
{
    let Strip {} = strip;
    let Shell { vec } = shell;
    vec
}

/// A `Vec` over the strip, which neither grows nor frees it.
pub(crate) fn lodge_strip(ptr: *mut u8, len: usize, strip: Strip) -> Vec<u8, Lodged>
    requires { (strip.ptr ≡ ptr) × (length strip.items ≡ len) × (0 < len) × (len < 2 ^ 63) }
    ensures { (result.items ≡ strip.items) × (result.len ≡ len) × (result.ptr ≡ ptr) }
{
    let Strip {} = strip;
    unsafe { lodge(ptr, len, len) }
}

/// The strip that such a `Vec` lay over.
pub(crate) fn dislodge_strip(vec: Vec<u8, Lodged>) -> Strip
    requires { 0 < vec.len }
    ensures { (result.ptr ≡ vec.ptr) × (result.items ≡ vec.items) }
{
    let _len = vec.dislodge();
    Strip {}
}

/// Cuts the strip after `at` bytes.
pub(crate) fn cut(strip: Strip, at: usize) -> (Strip, Strip)
    requires { at ≤ length strip.items }
    ensures { (result.0.ptr ≡ strip.ptr) × (result.0.items ≡ take at strip.items)
        × (result.1.ptr ≡ strip.ptr +ₚ at) × (result.1.items ≡ drop at strip.items) }
{
    let Strip {} = strip;
    (Strip {}, Strip {})
}

/// Joins two strips where the second follows the first.
pub(crate) fn join(front: Strip, back: Strip) -> Strip
    requires { back.ptr ≡ front.ptr +ₚ length front.items }
    ensures { (result.ptr ≡ front.ptr) × (result.items ≡ front.items ++ back.items) }
{
    let Strip {} = front;
    let Strip {} = back;
    Strip {}
}

/// Two strips that are not empty lie at different places.
pub(crate) fn differ(a: &mut Vec<u8, Lodged>, b: &mut Vec<u8, Lodged>)
    requires { (0 < a.old.len) × (0 < b.old.len) }
    ensures { (a.new ≡ a.old) × (b.new ≡ b.old) × (a.old.ptr ≢ b.old.ptr) }
{}
