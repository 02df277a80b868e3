ghost use Rattle.std.specs.Prelude.{◌≡◌, ℕ, List, length, drop, if◌then◌else◌, nat_le};
ghost use Rattle.std.specs.List.{slice_get};
ghost use Rattle.content.specs.declared.strips.Strip.{Strip};
ghost use Rattle.content.specs.Laws.{Lawful};

use crate::strips::Strip;

/// Anything that can be paged: a list of strips left, and a reach, which bounds every number of a strip.
/// Questions change nothing.
pub trait Content {
    // the strips left, in order
    ghost strips: { Self → List Strip };

    ghost reach: { Self → ℕ };

    fn reach(&self) -> u32
        ensures { result ≡ reach self.now };

    fn count(&self) -> u32
        ensures { result ≡ length (strips self.now) };

    /// Strip i of those left, from 0; None from the count on.
    fn strip(&self, i: u32) -> Option<Strip>
        ensures { result ≡ slice_get (strips self.now) i };

    /// Drops the first k strips and says yes; where there are fewer it says no and keeps all.
    fn take(&mut self, k: u32) -> bool
        ensures done { result ≡ nat_le k (length (strips self.old)) }
        ensures rest { strips self.new
            ≡ (if result then drop k (strips self.old) else strips self.old) }
        ensures reach { reach self.new ≡ reach self.old };

    // what every content owes, of any make
    ghost lawful: { (c : Self) → Lawful (strips c) (reach c) };
}
