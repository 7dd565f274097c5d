// The words of the free bits of a run: TRUE stands at 1, and the bits stand from 2 on.
ghost use Rattle.std.specs.Prelude.{◌≡◌, ℕ, ◌<◌, ◌≤◌, ◌+◌, true, length};
ghost use Rattle.lane_sim.specs.Lanes.{assignment_of};

use std::simd::u64x4;

/// Writes TRUE and the free bits.
pub(crate) fn put_free(free: &[u64x4], words: &mut [u64x4])
    requires { length free.now + 2 ≤ length words.old }
    ensures one { (j : ℕ) → j < 256 → assignment_of j words.new 1 ≡ true }
    ensures bits { (j i : ℕ) → i < length free.now → assignment_of j words.new (i + 2) ≡ assignment_of j free.now i }
{
    words[1] = u64x4::splat(u64::MAX);
    words[2..2 + free.len()].copy_from_slice(free);
}
