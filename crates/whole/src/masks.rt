// Masks of decisions: one alone, whether one is in a mask, and those of a mask that pass.
ghost use Rattle.std.specs.Prelude.{◌≡◌, ℕ, Bool, ◌<◌, ◌^◌};
ghost use Rattle.whole.specs.Words.{bit, those};
ghost use Rattle.whole.specs.Masks.{these};

use crate::Members;

// The mask of one decision.
pub fn single(j: usize) -> u64
    requires { j < 64 }
    ensures { result ≡ 2 ^ j }
{
    1 << j
}

// Is j in a mask? No mask has a decision from 64 on.
pub fn has(m: u64, j: usize) -> bool
    ensures { result ≡ bit m j }
{
    j < 64 && (m >> j) % 2 == 1
}

// Those of a mask that pass.
pub fn those<F: Fn(usize) -> bool>(of: u64, passes: F) -> u64
    requires { (k : ℕ) → k < 64 → F.pre passes k }
    ensures { (p : ℕ → Bool) → ((k : ℕ) (b : Bool) → k < 64 → F.post passes k b → b ≡ p k) → these result ≡ those p (these of) }
{
    let mut found = 0;
    for j in Members(of) {
        if passes(j) {
            found |= single(j);
        }
    }
    found
}
