// When nobody waits: the search for a small block, and its elimination.
ghost use Rattle.std.specs.Prelude.{◌≡◌, ◌+◌, ◌++◌, map, length};
ghost use Rattle.rules.specs.Graph.{neighbours};
ghost use Rattle.rules.specs.Counts.{members_gone, plus};
ghost use Rattle.rules.specs.Record.{hold};
ghost use Rattle.rules.specs.SmallBlock.{eliminate_block, block_steps};
ghost use Rattle.cost_laws.specs.Growth.{Network};
ghost use Rattle.small_block.specs.ByMasks.{block_of};
ghost use Rattle.run.specs.Blocks.{due_in, Removable};

use crate::Reached;
use graph::Graph;
use rules::{Options, Tally};
use small_block::Decisions;
use state::State;

// The block that is due, if small block is on and there is one.
pub fn due_block(g: &Graph, options: Options) -> Option<Decisions>
    requires { Network 64 (neighbours g.now) }
    ensures { block_of result ≡ due_in options g.now }
{
    if options.small_block {
        return small_block::find_block(g);
    }
    None
}

// The block is eliminated, and a unit is used.
pub fn take_block(g: &mut Graph, at: &mut Reached, members: &[usize])
    requires { Removable g.old at.old members.now }
    ensures { (g.new ≡ eliminate_block members.now g.old)
        × (at.new ≡ record { state = record { tally = plus at.old.state.tally (members_gone (length members.now)); takes = at.old.state.takes; blocks = at.old.state.blocks + 1 }; steps = at.old.steps ++ map hold (block_steps g.old members.now 0 members.now) }) }
{
    block_elimination::eliminate_block(g, members, &mut at.steps);
    let gone = Tally {
        in_blocks: members.len() as u32,
        ..Tally::default()
    };
    at.state = State {
        blocks: at.state.blocks + 1,
        ..at.state.counting(gone)
    };
}
