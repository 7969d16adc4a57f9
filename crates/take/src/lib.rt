// A take: which way its decision goes, and what is then done with it.
#![tactic(auto)]

ghost use Rattle.std.specs.Prelude.{◌≡◌, Some};
ghost use Rattle.rules.specs.Run as run;
ghost use Rattle.take.specs.Effects.{Ready, Leaves};

use crate::way::Way;
use graph::Graph;
use rules::{Options, Step};
use state::Did;

pub mod way; // which way it goes

// What a take made: a step, and the mask of the neighbours as they were, who may rejoin.
#[derive(Clone, Copy)]
pub struct Made {
    pub step: Step,
    pub near: u64,
}

// What a take did.
#[derive(Clone, Copy)]
pub struct Taken {
    pub did: Did,
    pub made: Option<Made>,
}

impl Taken {
    fn with(did: Did, step: Step, near: u64) -> Taken
        ensures { result ≡ record { did = did; made = Some (record { step = step; near = near }) } }
    {
        Taken {
            did,
            made: Some(Made { step, near }),
        }
    }
}

// What is done with i. "Inactive: skip, still one take."
pub fn take(g: &mut Graph, i: usize, options: Options) -> Taken
    requires { Ready g.old i }
    ensures { Leaves (run.way options g.old i) i g.old result g.new }
{
    let near = g.neighbours(i);
    let before = g.mask(i);
    match way::decide(g, near, i, options) {
        Way::Inactive | Way::Idle => Taken {
            did: Did::Nothing,
            made: None,
        },
        Way::Low => {
            let step = low_degree::eliminate(g, near, i);
            Taken::with(Did::Eliminated, step, before)
        }
        Way::Into(j, weak) => {
            let step = dominant_edge::contract(g, i, j);
            Taken::with(Did::Contracted(weak), step, before)
        }
        Way::Three => match degree_three::eliminate_three(g, near, i) {
            Some(step) => Taken::with(Did::Three, step, before),
            None => Taken {
                did: Did::Skipped,
                made: None,
            },
        },
    }
}
