// Laws of whole numbers, sums, lists and masks, and the few words the rules are written with, in specs/; here the same words for the code.
#![tactic(auto)]

mod masks;
mod members;

ghost use Rattle.std.specs.Prelude.{◌≡◌, ◌≤◌};
ghost use Rattle.whole.specs.Words.{one_if};
ghost use Rattle.whole.specs.Masks.{without as less};

pub use masks::{has, single, those};
pub use members::Members;

// A byte as a number of 64 bits.
pub fn wide(b: u8) -> u64
    ensures { result ≡ b }
{
    b as u64
}

// 1 or 0.
pub fn one_if(b: bool) -> u32
    ensures { (result ≡ one_if b) × (result ≤ 1) }
{
    if b {
        return 1;
    }
    0
}

// Those of the mask a that are not in the mask s.
pub fn without(a: u64, s: u64) -> u64
    ensures { result ≡ less a s }
{
    a ^ (a & s)
}
