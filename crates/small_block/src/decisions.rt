// Decisions in an order, at the front of an array: a block's members as it grew, or those around it.
ghost use Rattle.std.specs.Prelude.{◌≡◌, ℕ, ◌+◌, ◌<◌, ◌≤◌, [], ◌∷◌, ◌++◌, length, get_or};
ghost use Rattle.whole.specs.Masks.{these};

use std::marker::Model;
use whole::Members;

// Kept: an array with its length beside it, since there is no heap: at most 64 decisions grow.
#[derive(Drop)]
pub struct Decisions {
    order: [usize; 64],
    count: usize,
}

impl Model for Decisions {
    ghost use Rattle.std.specs.Prelude.{List, ℕ, ◌≤◌, take};

    ghost Value = { List ℕ };

    ghost view = { λ b. take b.count b.order };

    ghost invariant = { λ b. b.count ≤ 64 };
}

impl Decisions {
    // None.
    pub fn new() -> Decisions
        ensures { result ≡ [] }
    {
        Decisions {
            order: [0; 64],
            count: 0,
        }
    }

    // They are lent.
    pub fn as_slice(&self) -> &[usize]
        ensures { result.now ≡ self.now }
    {
        &self.order[..self.count]
    }

    // The decisions of a mask join, ascending.
    pub fn join(&mut self, new: u64)
        requires { length self.old + length (these new) ≤ 64 }
        ensures { self.new ≡ self.old ++ these new }
    {
        for j in Members(new) {
            self.order[self.count] = j;
            self.count += 1;
        }
    }
}
