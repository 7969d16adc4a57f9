// Contracting a decision with a dominant neighbour.
#![tactic(auto)]

ghost use Rattle.std.specs.Prelude.{◌≡◌, true, ◌&&◌, ◌||◌, [], ◌∷◌, ◌≢◌, ℕ, ◌<◌, ◌≤◌, ◌^◌, get_or, pos};
ghost use Rattle.std.specs.Int.Signed.{le_z};
ghost use Rattle.whole.specs.Masks.{these};
ghost use Rattle.whole.specs.Parts.{∣◌∣};
ghost use Rattle.whole.specs.Words.{is_zero_z, mem};
ghost use Rattle.accepted_laws.specs.Small.{Small};
ghost use Rattle.rules.specs.Graph.{lin};
ghost use Rattle.rules.specs.Eliminate.{step as played_step};
ghost use Rattle.rules.specs.DominantEdge.{contract as contracted, contract_step};
ghost use Rattle.rules.specs.Record.{hold};
ghost use Rattle.rules.specs.Size.{Within};
ghost use Rattle.dominant_edge.specs.Answer.{BoundsAre, edge_bounds_of, verdict_of, test_of, Finds, Gives};

use graph::Graph;
use rules::Step;
use whole::Members;

// The least and the largest that a decision's delta can be.
#[derive(Clone, Copy)]
pub struct Bounds {
    pub lo: i64,
    pub hi: i64,
}

// ---- finding it

// Of a decision i of weight a, whose neighbours are those of the mask m: lo is a plus the negative edges, hi is a plus the positive ones.
#[tactic(auto, using(graph::specs::MaskLaws::these_head))]
pub fn bounds_of(edges: &[i64; 4096], a: i64, m: u64, i: usize) -> Bounds
    requires { (i < 64) × (∣ a ∣ ≤ 1099511627776) × Small 2199023255552 edges.now }
    ensures { BoundsAre result a m i edges.now × (∣ result.lo ∣ ≤ 2 ^ 50) × (∣ result.hi ∣ ≤ 2 ^ 50) }
{
    let mut lo = a;
    let mut hi = a;
    for j in Members(m) {
        let w = edges[64 * i + j];
        let below = w.min(0);
        lo += below;
        hi += w - below;
    }
    Bounds { lo, hi }
}

// The two bounds that an edge w is tested by: hi less its size, and lo and its size.
pub fn edge_bounds(bounds: Bounds, w: i64) -> Bounds
    requires { (∣ bounds.lo ∣ ≤ 2 ^ 50) × (∣ bounds.hi ∣ ≤ 2 ^ 50) × (∣ w ∣ ≤ 2199023255552) }
    ensures { result ≡ edge_bounds_of bounds w }
{
    let size = w.abs();
    Bounds {
        lo: bounds.lo + size,
        hi: bounds.hi - size,
    }
}

// Whether an edge of these two bounds dominates.
pub fn passes(upper: i64, lower: i64) -> bool
    ensures { result ≡ (le_z upper (pos 0) && le_z (pos 0) lower) }
{
    upper <= 0 && lower >= 0
}

// Either bound is 0: told of an edge that does not pass, too.
pub fn is_weak(upper: i64, lower: i64) -> bool
    ensures { result ≡ (is_zero_z upper || is_zero_z lower) }
{
    upper == 0 || lower == 0
}

// Whether it dominates, and then whether it is weak.
pub fn verdict(upper: i64, lower: i64) -> Option<bool>
    ensures { result ≡ verdict_of upper lower }
{
    passes(upper, lower).then_some(is_weak(upper, lower))
}

// The verdict on an edge w of the decision.
pub fn test_edge(bounds: Bounds, w: i64) -> Option<bool>
    requires { (∣ bounds.lo ∣ ≤ 2 ^ 50) × (∣ bounds.hi ∣ ≤ 2 ^ 50) × (∣ w ∣ ≤ 2199023255552) }
    ensures { result ≡ test_of bounds w }
{
    let tested = edge_bounds(bounds, w);
    verdict(tested.hi, tested.lo)
}

// Neighbours ascending, the first that passes, and whether it is weak.
#[tactic(auto, using(graph::specs::MaskLaws::these_head))]
pub fn dominant_neighbour(edges: &[i64; 4096], a: i64, m: u64, i: usize) -> Option<(usize, bool)>
    requires { (i < 64) × (∣ a ∣ ≤ 1099511627776) × Small 2199023255552 edges.now }
    ensures { Finds result a m i edges.now }
{
    let bounds = bounds_of(edges, a, m, i);
    for j in Members(m) {
        if let Some(weak) = test_edge(bounds, edges[64 * i + j]) {
            return Some((j, weak));
        }
    }
    None
}

// ---- substituting

// The edges of a decision that has gone are given to j: where x of the decision becomes 1 − x of j, each other edge of its row goes
// to its neighbour, and its negative to the edge of that neighbour and j; where it becomes x of j, to that edge alone.
#[tactic(auto, using(graph::specs::MaskLaws::these_head))]
fn give_edges(g: &mut Graph, row: &[i64; 64], m: u64, j: usize, turned: bool)
    requires { (j < 64) × (j < g.old.n) × ((t : ℕ) → mem t (these m) ≡ true → t < g.old.n)
        × Small 2199023255552 row.now × ((t : ℕ) → t ≢ j → ∣ lin g.old t ∣ ≤ 1099511627776) × Small 2199023255552 g.old.edges }
    ensures { Gives turned row.now m j g.old g.new }
{
    for t in Members(m) {
        let w = row[t];
        if t == j {
            continue;
        }
        if turned {
            g.add_linear(t, w);
            g.add_edge(j, t, -w);
        } else {
            g.add_edge(j, t, w);
        }
    }
}

// A step over the one neighbour j.
pub fn step_over(i: usize, j: usize, choices: u8) -> Step
    requires { (i < 64) × (j < 64) }
    ensures { result ≡ hold (played_step i (j ∷ []) choices) }
{
    Step {
        decision: i as u8,
        degree: 1,
        first: j as u8,
        choices,
        ..Step::default()
    }
}

// i leaves, tied to j.
pub fn contract(g: &mut Graph, i: usize, j: usize) -> Step
    requires { (i < 64) × (j < g.old.n) × Within g.old }
    ensures { (g.new ≡ contracted i j g.old) × (result ≡ hold (contract_step i j g.old)) }
{
    g.known();
    let a = g.linear(i);
    let w = g.edge(i, j);
    let m = g.mask(i);
    let row = g.row(i);
    g.drop_to(3, i);
    if w > 0 {
        g.add_constant(a);
        g.add_linear(j, -a);
        give_edges(g, &row, m, j, true);
        return step_over(i, j, 1);
    }
    g.add_linear(j, a + w);
    give_edges(g, &row, m, j, false);
    step_over(i, j, 2)
}
