// What the calls of 01-scope.md take and give back. The rules themselves stand in specs/.
#![tactic(auto)]

mod objective;
mod refusal;

ghost use Rattle.std.specs.Prelude.{◌≡◌};
ghost use Rattle.rules.specs.Options.{options_of};
ghost use Rattle.rules.specs.Record.{no_record};

pub use objective::Objective;
pub use refusal::Refusal;

// What a run is asked besides its objective: which reductions it makes.
#[derive(Clone, Copy, Debug, PartialEq, Eq)]
pub struct Options {
    pub low_degree: bool,
    pub degree_three: bool,
    pub dominant_edge: bool,
    pub small_block: bool,
}

// "Switch bits: 0 low degree, 1 degree three, 2 dominant edge, 3 small block."
impl From<u32> for Options {
    ghost from_gives = { λ switches opt. opt ≡ options_of switches };

    fn from(switches: u32) -> Options {
        Options {
            low_degree: switches % 2 == 1,
            degree_three: switches / 2 % 2 == 1,
            dominant_edge: switches / 4 % 2 == 1,
            small_block: switches / 8 % 2 == 1,
        }
    }
}

// A step as the record holds it: decision, degree d, three neighbours, choices (bit m for mask m). The default is one that is not used.
#[derive(Clone, Copy, Debug, PartialEq, Eq, Default)]
pub struct Step {
    pub decision: u8,
    pub degree: u8,
    pub first: u8,
    pub second: u8,
    pub third: u8,
    pub choices: u8,
}

// How to grow an answer back. `count` is the number of steps; a state for each decision: 0 or 1 fixed, 2 remaining, 3 eliminated.
#[derive(Clone, Copy, Debug, PartialEq, Eq)]
pub struct Record {
    pub n: u8,
    pub count: u8,
    pub constant: i64,
    pub states: [u8; 64],
    pub steps: [Step; 64],
}

// One with no decision.
impl Default for Record {
    ghost is_default = { λ r. r ≡ no_record };

    fn default() -> Record {
        Record {
            n: 0,
            count: 0,
            constant: 0,
            states: [0; 64],
            steps: [Step::default(); 64],
        }
    }
}

// The counts that a reduction adds to.
#[derive(Clone, Copy, Debug, PartialEq, Eq, Default)]
pub struct Tally {
    pub eliminated: u32,
    pub three: u32,
    pub skipped: u32,
    pub contracted: u32,
    pub weakly: u32,
    pub in_blocks: u32,
}

// The counts of `RootReductionStatistics`, cut dominance aside.
#[derive(Clone, Copy, Debug, PartialEq, Eq, Default)]
pub struct Counts {
    pub eliminated: u32,
    pub degree_three_eliminated: u32,
    pub degree_three_skipped: u32,
    pub contracted: u32,
    pub weak_contractions: u32,
    pub additional_fixed: u32,
    pub remaining: u32,
    pub passes: u32,
    pub blocks_eliminated: u32,
    pub block_variables: u32,
}

// All that a reduction gives.
#[derive(Clone, Copy, Debug, PartialEq, Eq)]
pub struct Reduction {
    pub record: Record,
    pub counts: Counts,
    pub takes: u32,
    pub blocks: u32,
    pub units: u32,
    pub complete: bool,
}
