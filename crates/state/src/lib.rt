// A state of the run by value: what it has counted. The graph, the steps and the queue are values of their own beside it.
#![tactic(auto)]

ghost use Rattle.std.specs.Prelude.{◌≡◌, ◌+◌, ◌<◌};
ghost use Rattle.rules.specs.Counts.{plus};
ghost use Rattle.state.specs.Counting.{counts, Countable, OfUnit};

use rules::Tally;

pub mod steps; // the steps so far
pub mod waiting; // who waits

#[derive(Clone, Copy, Default)]
pub struct State {
    pub tally: Tally,
    pub takes: u32,
    pub blocks: u32,
}

// What a take does with its decision. Contracted: weakly or not.
#[derive(Clone, Copy)]
pub enum Did {
    Nothing,
    Skipped,
    Eliminated,
    Three,
    Contracted(bool),
}

// The counts of one unit.
impl From<Did> for Tally {
    ghost use Rattle.state.specs.Counting.{counts};

    ghost from_gives = { λ did tally. tally ≡ counts did };

    fn from(did: Did) -> Tally {
        match did {
            Did::Nothing => Tally::default(),
            Did::Skipped => Tally {
                skipped: 1,
                ..Tally::default()
            },
            Did::Eliminated => Tally {
                eliminated: 1,
                ..Tally::default()
            },
            Did::Three => Tally {
                eliminated: 1,
                three: 1,
                ..Tally::default()
            },
            Did::Contracted(weakly) => Tally {
                contracted: 1,
                weakly: u32::from(weakly),
                ..Tally::default()
            },
        }
    }
}

impl State {
    // Each count with what is added to it.
    #[tactic(auto, unfolding(rules::specs::Counts::plus))]
    pub fn counting(self, more: Tally) -> State
        requires { Countable self.tally × OfUnit more }
        ensures { result ≡ record { tally = plus self.tally more; takes = self.takes; blocks = self.blocks } }
    {
        let t = self.tally;
        let tally = Tally {
            eliminated: t.eliminated + more.eliminated,
            three: t.three + more.three,
            skipped: t.skipped + more.skipped,
            contracted: t.contracted + more.contracted,
            weakly: t.weakly + more.weakly,
            in_blocks: t.in_blocks + more.in_blocks,
        };
        State { tally, ..self }
    }

    // After a take: one unit more.
    pub fn after(self, did: Did) -> State
        requires { Countable self.tally × (self.takes < 4294967295) }
        ensures { result ≡ record { tally = plus self.tally (counts did); takes = self.takes + 1; blocks = self.blocks } }
    {
        let counted = self.counting(Tally::from(did));
        State {
            takes: self.takes + 1,
            ..counted
        }
    }

    // "One unit per take and one per block eliminated."
    pub fn units(&self) -> u32
        requires { self.now.takes + self.now.blocks < 4294967296 }
        ensures { result ≡ self.now.takes + self.now.blocks }
    {
        self.takes + self.blocks
    }
}
