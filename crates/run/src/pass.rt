// A pass: who is eligible is queued and taken from the front, until nobody waits or no unit is left.
ghost use Rattle.std.specs.Prelude.{◌+◌, ◌≤◌};
ghost use Rattle.rules.specs.Run as rule;
ghost use Rattle.run.specs.Course.{ToPass, Passes};

use crate::{CutShort, Reached};
use graph::Graph;
use rules::Options;
use state::waiting;

pub fn pass(g: &mut Graph, at: &mut Reached, options: Options, budget: u32) -> Result<(), CutShort>
    requires { (E : rule.Ended) × ToPass budget options E g.old at.old }
    ensures { ((E : rule.Ended) → ToPass budget options E g.old at.old → Passes budget options E result g.new at.new)
        × (at.old.state.takes + at.old.state.blocks ≤ at.new.state.takes + at.new.state.blocks) }
{
    let mut q = waiting::first_queue(g, options);
    while let Some(first) = q.take_front() {
        let (i, behind) = first;
        if at.state.units() == budget {
            return Err(CutShort);
        }
        let taken = take::take(g, i, options);
        at.state = at.state.after(taken.did);
        q = match taken.made {
            Some(made) => {
                at.steps.push(made.step);
                waiting::rejoin(g, options, behind, made.near)
            }
            None => behind,
        };
    }
    Ok(())
}
