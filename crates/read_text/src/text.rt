// A text that was read: its first line, and its lists at the fronts of arrays.
ghost use Rattle.std.specs.Prelude.{◌≤◌};

use rules::Objective;

// The first line.
#[derive(Clone, Copy)]
pub struct Head {
    pub n: u32,
    pub switches: u32,
    pub budget: u32,
    pub terms: u32,
}

// The terms, each list at the front of its array.
// Kept: as three lists, since `reduce` and its C export take them so, and `objective` lends them as they stand.
#[derive(Clone, Copy)]
pub struct Terms {
    pub firsts: [u32; 1024],
    pub seconds: [u32; 1024],
    pub weights: [i64; 1024],
}

// A text, read; its lists stand at the fronts of the arrays.
// Kept: arrays with their lengths in the first line, since there is no heap: each is as long as its list can be.
#[derive(Clone, Copy)]
pub struct Text {
    pub head: Head,
    pub weights: [i64; 64],
    pub fixings: [u8; 64],
    pub terms: Terms,
    ghost few: { (head.n ≤ 64) × (head.terms ≤ 1024) },
}

impl Text {
    ghost use Rattle.std.specs.Prelude.{◌≡◌};
    ghost use Rattle.rules.specs.Given.{of_lists};
    ghost use Rattle.read_text.specs.Seen.{objective_in};

    // The objective that it gives.
    pub fn objective(&self) -> Objective<'_>
        ensures { of_lists result ≡ objective_in self.now }
    {
        let n = self.head.n as usize;
        let k = self.head.terms as usize;
        Objective {
            n: self.head.n,
            weights: &self.weights[..n],
            firsts: &self.terms.firsts[..k],
            seconds: &self.terms.seconds[..k],
            term_weights: &self.terms.weights[..k],
            fixings: &self.fixings[..n],
            switches: self.head.switches,
            budget: self.head.budget,
        }
    }
}
