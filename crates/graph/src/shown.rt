// Weights, edges and the masks that show them, while the rest of a graph stands still.
ghost use Rattle.std.specs.Prelude.{◌≡◌, List, ℕ, ◌+◌, ◌*◌, ◌<◌, ◌≤◌, cond, not, length, get_or, set, eqb, ℤ, pos, nat_abs, ◌+ℤ◌};
ghost use Rattle.std.specs.Int.{w64};
ghost use Rattle.std.proofs.Common.{SFits};
ghost use Rattle.whole.specs.Words.{bit, is_zero_z};
ghost use Rattle.rules.specs.Graph.{graph, clear as cleared, add_term, add_terms};
ghost use Rattle.rules.specs.Objective.{weight_of};
ghost use Rattle.graph.specs.Shows.{Shows};

use whole::Members;

// A mask with decision j in it where the weight w is an edge, and without j where it is none.
pub fn marked(m: u64, j: usize, w: i64) -> u64
    requires { j < 64 }
    ensures { (k : ℕ) → k < 64 → bit result k ≡ cond (eqb k j) (not (is_zero_z w)) (bit m k) }
{
    let one: u64 = 1 << j;
    if w != 0 {
        return m | one;
    }
    whole::without(m, one)
}

// Kept: weights, edges and masks apart from here on, since between an edge's two writes a graph's invariant does not hold, and nothing is asked that makes a graph: edges the same both ways round, none past n, masks that show them.
// A weight gains v.
pub fn add_linear(lin: &mut [i64; 64], k: usize, v: i64)
    requires { (k < 64) × SFits w64 (get_or lin.old k (pos 0) +ℤ v) }
    ensures { lin.new ≡ set lin.old k (get_or lin.old k (pos 0) +ℤ v) }
{
    lin[k] += v;
}

// An edge gains v, and the masks of the two show whether it is one.
pub fn add_edge(edges: &mut [i64; 4096], masks: &mut [u64; 64], k: usize, l: usize, v: i64)
    requires { (k < 64) × (l < 64) × SFits w64 (get_or edges.old (64 * k + l) (pos 0) +ℤ v) × SFits w64 (get_or edges.old (64 * l + k) (pos 0) +ℤ v) }
    ensures { (edges.new ≡ set (set edges.old (64 * k + l) (get_or edges.old (64 * k + l) (pos 0) +ℤ v)) (64 * l + k) (get_or edges.old (64 * l + k) (pos 0) +ℤ v))
        × ((n : ℕ) → k < n → l < n → Shows n edges.old masks.old → Shows n edges.new masks.new) }
{
    let a = 64 * k + l;
    let b = 64 * l + k;
    let x = edges[a] + v;
    let y = edges[b] + v;
    edges[a] = x;
    edges[b] = y;
    masks[k] = marked(masks[k], l, x);
    masks[l] = marked(masks[l], k, y);
}

// i's edges are none, both ways round: those that its mask shows.
#[tactic(auto, using(crate::specs::MaskLaws::these_head))]
pub fn wipe(edges: &mut [i64; 4096], masks: &mut [u64; 64], i: usize)
    requires { i < 64 }
    ensures { (n : ℕ) → n ≤ 64 → Shows n edges.old masks.old
        → (edges.new ≡ cleared i n edges.old) × Shows n edges.new masks.new }
{
    for j in Members(masks[i]) {
        edges[64 * i + j] = 0;
        edges[64 * j + i] = 0;
        masks[j] = marked(masks[j], i, 0);
    }
    masks[i] = 0;
}

// A term of a decision with itself is linear.
pub fn add_term(
    lin: &mut [i64; 64],
    edges: &mut [i64; 4096],
    masks: &mut [u64; 64],
    i: usize,
    j: usize,
    w: i64,
)
    requires { (i < 64) × (j < 64) × (weight_of lin.old + weight_of edges.old + 2 * nat_abs w ≤ 2199023255552) }
    ensures { ((n : ℕ) (c : ℤ) (ss : List ℕ) → graph n c lin.new edges.new ss ≡ add_term i j w (graph n c lin.old edges.old ss))
        × (weight_of lin.new + weight_of edges.new ≤ weight_of lin.old + weight_of edges.old + 2 * nat_abs w)
        × ((n : ℕ) → i < n → j < n → Shows n edges.old masks.old → Shows n edges.new masks.new) }
{
    if i == j {
        add_linear(lin, i, w);
    } else {
        add_edge(edges, masks, i, j, w);
    }
}

// Until one of the three lists ends.
pub fn add_terms(
    lin: &mut [i64; 64],
    edges: &mut [i64; 4096],
    masks: &mut [u64; 64],
    firsts: &[u32],
    seconds: &[u32],
    term_weights: &[i64],
)
    requires { ((k : ℕ) → k < length firsts.now → get_or firsts.now k 0 < 64)
        × ((k : ℕ) → k < length seconds.now → get_or seconds.now k 0 < 64)
        × (weight_of lin.old + weight_of edges.old + 2 * weight_of term_weights.now ≤ 2199023255552) }
    ensures { ((n : ℕ) (c : ℤ) (ss : List ℕ) → graph n c lin.new edges.new ss ≡ add_terms firsts.now seconds.now term_weights.now (graph n c lin.old edges.old ss))
        × (weight_of lin.new + weight_of edges.new ≤ 2199023255552)
        × ((n : ℕ) → ((k : ℕ) → k < length firsts.now → get_or firsts.now k 0 < n) → ((k : ℕ) → k < length seconds.now → get_or seconds.now k 0 < n)
        → Shows n edges.old masks.old → Shows n edges.new masks.new) }
{
    for ((i, j), w) in firsts.iter().zip(seconds).zip(term_weights) {
        add_term(lin, edges, masks, *i as usize, *j as usize, *w);
    }
}
