//! Sequence numbers of the reliable transport: 16 bits, which wrap, of indices that do not.

ghost use Rattle.std.specs.Prelude.{◌≡◌, ℕ, ◌^◌, ◌<◌, ◌≤◌, ◌↔◌, ℤ, pos, ◌<ℤ◌};
ghost use Rattle.std.specs.Prelude.{IsTrue, IfSome, IfNone};
ghost use Rattle.csp_base.specs.Sequence.{number_of, ahead_of, IsApart, IsNear, near};

/// A sequence number: an index of a flow, modulo 65,536.
#[derive(Clone, Copy, PartialEq, Eq, Default)]
pub struct Seq(pub u16);

impl Seq {
    /// The number `n` places on, modulo 65,536.
    pub fn add(self, n: u64) -> Seq
        ensures { result.0 ≡ number_of self.0 (pos n) }
    {
        Seq(self.0.wrapping_add((n % 65_536) as u16))
    }

    /// The true index that this number shows in a flow that starts at `start`: the one of the
    /// 65,536 indices round `around`. `None` where that index is negative, as no flow has it.
    pub fn index_near(self, start: Seq, around: u64) -> Option<u64>
        requires { around < 2 ^ 63 }
        ensures index { IfSome result (λ t. near self.0 start.0 (pos around) ≡ pos t) }
        ensures negative { IfNone result (near self.0 start.0 (pos around) <ℤ pos 0) }

        // There is just one such index.
        ensures exists { IsNear self.0 start.0 (pos around) (near self.0 start.0 (pos around)) }
        ensures one { (t : ℤ)
            → IsNear self.0 start.0 (pos around) t
            → near self.0 start.0 (pos around) ≡ t }
    {
        let distance = u64::from(ahead(start.add(around), self));
        if distance < 32_768 {
            Some(around + distance)
        } else {
            (around + distance).checked_sub(65_536)
        }
    }
}

/// How far `b` lies ahead of `a`, modulo 65,536.
pub fn ahead(a: Seq, b: Seq) -> u16
    ensures value { result ≡ ahead_of a.0 b.0 }

    // On true indices of one flow: by how much `b`'s is the greater, where that is below 65,536.
    ensures indices { (d : ℕ) → d < 65536 → IsApart a.0 b.0 d → result ≡ d }
{
    b.0.wrapping_sub(a.0)
}

/// Whether `s` is among the numbers from `lo` on to `hi`, both of them included.
pub fn between(s: Seq, lo: Seq, hi: Seq) -> bool
    ensures value { IsTrue result ↔ (ahead_of lo.0 s.0 ≤ ahead_of lo.0 hi.0) }

    // On true indices of one flow less than 65,536 after that of `lo`: whether it is at most `hi`'s.
    ensures indices { (d e : ℕ)
        → d < 65536 → e < 65536
        → IsApart lo.0 s.0 d → IsApart lo.0 hi.0 e
        → IsTrue result ↔ (d ≤ e) }
{
    ahead(lo, s) <= ahead(lo, hi)
}
