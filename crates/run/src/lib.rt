// The run: what is due is done, one unit each, until nothing is due or no unit is left.
#![tactic(auto)]

ghost use Rattle.std.specs.Prelude.{◌≡◌, is_ok};
ghost use Rattle.rules.specs.Run.{begin as begun, run as ran};
ghost use Rattle.run.specs.Course.{at_start, Started, Ends};

use graph::Graph;
use pass::pass;
use rules::Options;
use state::State;
use state::steps::Steps;

mod block; // the block that is due
mod pass; // from the queue's first to nobody

// How far a run has come: its state and its steps.
#[derive(Clone, Copy)]
pub struct Reached {
    pub state: State,
    pub steps: Steps,
}

impl Reached {
    // Before anything is taken.
    fn new() -> Reached
        ensures { result ≡ at_start }
    {
        Reached {
            state: State::default(),
            steps: Steps::new(),
        }
    }
}

// Something is due, and no unit is left.
#[derive(Clone, Copy, Debug, PartialEq, Eq)]
pub struct CutShort;

// Passes, and a block between two of them.
fn passes(
    g: &mut Graph,
    reached: &mut Reached,
    options: Options,
    budget: u32,
) -> Result<(), CutShort>
    requires { Started g.old × (reached.old ≡ at_start) }
    ensures { Ends (ran budget options (begun options g.old)) (is_ok result) g.new reached.new }
{
    loop {
        pass(g, reached, options, budget)?;
        let Some(found) = block::due_block(g, options) else {
            return Ok(());
        };
        if reached.state.units() == budget {
            return Err(CutShort);
        }
        block::take_block(g, reached, found.as_slice());
    }
}

// A run of at most `budget` units: how far it came, and whether it was cut short there.
pub fn run(g: &mut Graph, options: Options, budget: u32) -> (Reached, Result<(), CutShort>)
    requires { Started g.old }
    ensures { Ends (ran budget options (begun options g.old)) (is_ok result.1) g.new result.0 }
{
    let mut reached = Reached::new();
    let ended = passes(g, &mut reached, options, budget);
    (reached, ended)
}
