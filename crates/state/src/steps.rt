// The steps of a run so far, as a record holds them.
ghost use Rattle.std.specs.Prelude.{◌≡◌, [], ◌∷◌, ◌++◌, ◌-◌, ◌<◌, length, replicate};
ghost use Rattle.rules.specs.Record.{no_step};

use rules::Step;
use std::marker::Model;

// Kept: 64 places with a count beside them: the record has them all (project rule: fixed memory).
#[derive(Clone, Copy)]
pub struct Steps {
    list: [Step; 64],
    count: usize,
}

// Clauses see the steps made; the other places are not used.
impl Model for Steps {
    ghost use Rattle.std.specs.Prelude.{List, take};
    ghost use Rattle.rules.specs.declared.Step.{Step};

    ghost Value = { List Step };

    ghost use Rattle.state.specs.Steps.{StepsKept, places_of};
    ghost use Rattle.state.specs.StepsLaws.{given_back};

    ghost view = { λ s. take s.count s.list };

    ghost invariant = { StepsKept };

    ghost inverse = { places_of };

    ghost inverse_ok = { given_back };
}

impl Steps {
    // None yet.
    pub fn new() -> Steps
        ensures { result ≡ [] }
    {
        Steps {
            list: [Step::default(); 64],
            count: 0,
        }
    }

    // One more.
    pub fn push(&mut self, step: Step)
        requires { length self.old < 64 }
        ensures { self.new ≡ self.old ++ step ∷ [] }
    {
        self.list[self.count] = step;
        self.count += 1;
    }

    pub fn len(&self) -> usize
        ensures { result ≡ length self.now }
    {
        self.count
    }

    // These, then those that are not used.
    pub fn all(&self) -> &[Step; 64]
        ensures { result.now ≡ self.now ++ replicate (64 - length self.now) no_step }
    {
        &self.list
    }
}
