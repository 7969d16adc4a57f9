// Eliminating a small block: its members leave, what they cost at best goes to its boundary, and each gets a step.
#![tactic(auto)]

ghost use Rattle.std.specs.Prelude.{◌≡◌, ◌++◌, ◌+◌, ◌<◌, ◌≤◌, ◌^◌, length, get_or, map, replicate, pos};
ghost use Rattle.whole.specs.Words.{bit, bits_from, tab};
ghost use Rattle.rules.specs.Record.{hold};
ghost use Rattle.rules.specs.Size.{Within};
ghost use Rattle.rules.specs.SmallBlock.{inner, drop_all, eliminate_block, block_steps};
ghost use Rattle.cost_laws.specs.Found.{SmallBlock};
ghost use Rattle.block_minima.specs.Weights.{weights, Listed};
ghost use Rattle.block_elimination.specs.Block.{mask_at, cost_at, Lowest, member_step};

use block_minima::Best;
use graph::Graph;
use rules::Step;
use state::steps::Steps;

// ---- the minima

// For each boundary filling the cheapest interior mask, and what it costs; then zeros.
pub fn minima(
    linear: &[i64; 64],
    edges: &[i64; 4096],
    members: &[usize],
    outside: &[usize],
) -> [Best; 4]
    requires { Within (weights linear.now edges.now) × Listed members.now × Listed outside.now × (length outside.now ≤ 2) }
    ensures { Lowest (λ f. inner (weights linear.now edges.now) outside.now f members.now) (length members.now) (2 ^ length outside.now) result }
{
    let mut won = [Best::default(); 4];
    for f in 0..1 << outside.len() {
        won[f] = block_minima::cheapest_mask(linear, edges, members, outside, f);
    }
    won
}

// What they cost, as absorbing takes it.
fn table(won: [Best; 4]) -> [i64; 8]
    ensures { result ≡ tab (cost_at won) 4 ++ replicate 4 (pos 0) }
{
    let [a, b, c, d] = won;
    [a.cost, b.cost, c.cost, d.cost, 0, 0, 0, 0]
}

// ---- the steps

// The choices of the member at place k: for each filling its bit of the winning mask.
fn choices(won: [Best; 4], k: usize) -> u8
    ensures { result ≡ bits_from (λ f. bit (mask_at won f) k) 0 4 }
{
    let [a, b, c, d] = won;
    let bit = |best: Best| u8::from(whole::has(best.mask as u64, k));
    bit(a) + 2 * bit(b) + 4 * bit(c) + 8 * bit(d)
}

// The step of the member i at place k: it looks at the whole boundary.
fn member_step(won: [Best; 4], outside: &[usize], k: usize, i: usize) -> Step
    requires { Listed outside.now × (length outside.now ≤ 2) × (i < 64) }
    ensures { result ≡ hold (member_step outside.now won k i) }
{
    let [first, second] = match *outside {
        [] => [0, 0],
        [only] => [only, 0],
        [one, two, ..] => [one, two],
    };
    Step {
        decision: i as u8,
        degree: outside.len() as u8,
        first: first as u8,
        second: second as u8,
        third: 0,
        choices: choices(won, k),
    }
}

// One step per member, in growth order.
pub fn block_steps(members: &[usize], outside: &[usize], won: [Best; 4], steps: &mut Steps)
    requires { Listed members.now × Listed outside.now × (length outside.now ≤ 2) × (length steps.old + length members.now ≤ 64) }
    ensures { steps.new ≡ steps.old ++ map hold (tab (λ k. member_step outside.now won k (get_or members.now k 0)) (length members.now)) }
{
    for (k, &i) in members.iter().enumerate() {
        steps.push(member_step(won, outside, k, i));
    }
}

// ---- the graph

// The members leave.
pub fn drop_all(g: &mut Graph, members: &[usize])
    requires { Listed members.now }
    ensures { g.new ≡ drop_all members.now g.old }
{
    for &i in members {
        g.drop_to(3, i);
    }
}

// A block is eliminated, and its members' steps join the others.
pub fn eliminate_block(g: &mut Graph, members: &[usize], steps: &mut Steps)
    requires { Within g.old × SmallBlock g.old members.now × (length steps.old + length members.now ≤ 64) }
    ensures { (g.new ≡ eliminate_block members.now g.old)
        × (steps.new ≡ steps.old ++ map hold (block_steps g.old members.now 0 members.now)) }
{
    g.known();
    let around = small_block::boundary_of(g, members);
    let outside = around.as_slice();
    let won = minima(g.weights(), g.edges(), members, outside);
    block_steps(members, outside, won, steps);
    drop_all(g, members);
    low_degree::absorb(g, table(won), outside);
}
