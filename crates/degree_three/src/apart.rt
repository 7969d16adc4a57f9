// Absorbing three neighbours into a constant, weights and edges that need not be a graph's.
// Kept: they stand apart, since nothing is asked that makes a graph: edges the same both ways round, none past n, masks that show them.
ghost use Rattle.std.specs.Prelude.{◌≡◌, List, [], ℕ, ◌<◌, ◌^◌, get_or, ℤ, pos};
ghost use Rattle.rules.specs.Graph.{graph};
ghost use Rattle.rules.specs.DegreeThree.{pairs, add_pairs, absorb3};
ghost use Rattle.rules.specs.Size.{Within};
ghost use Rattle.accepted_laws.specs.Small.{Small};
ghost use Rattle.graph.specs.Shows.{Shows};

use crate::PAIRS;
use graph::Near;

// Each pair's edge gains its entry.
pub fn add_pairs(edges: &mut [i64; 4096], masks: &mut [u64; 64], near: Near, entries: [i64; 8])
    requires { ((k : ℕ) → k < 3 → get_or near.list k 0 < 64) × Small 2199023255552 edges.old × Small (2 ^ 54) entries }
    ensures { ((n : ℕ) (c : ℤ) (l : List ℤ) (ss : List ℕ) → graph n c l edges.new ss ≡ add_pairs (λ m. get_or entries m (pos 0)) near.list pairs (graph n c l edges.old ss))
        × ((n : ℕ) → ((k : ℕ) → k < 3 → get_or near.list k 0 < n) → Shows n edges.old masks.old → Shows n edges.new masks.new) }
{
    for pair in PAIRS {
        let j = usize::from(near.list[pair.low]);
        let k = usize::from(near.list[pair.high]);
        graph::add_edge(edges, masks, j, k, entries[pair.mask]);
    }
}

// The constant, the three neighbours and their pairs gain the entries; the result is the constant that comes of it.
pub fn absorb_three(
    lin: &mut [i64; 64],
    edges: &mut [i64; 4096],
    masks: &mut [u64; 64],
    constant: i64,
    near: Near,
    entries: [i64; 8],
) -> i64
    requires { ((k : ℕ) → k < 3 → get_or near.list k 0 < 64) × Within (graph 64 constant lin.old edges.old []) × Small (2 ^ 54) entries }
    ensures { ((n : ℕ) (ss : List ℕ) → graph n result lin.new edges.new ss ≡ absorb3 (λ m. get_or entries m (pos 0)) near.list (graph n constant lin.old edges.old ss))
        × ((n : ℕ) → ((k : ℕ) → k < 3 → get_or near.list k 0 < n) → Shows n edges.old masks.old → Shows n edges.new masks.new) }
{
    graph::add_linear(lin, usize::from(near.list[0]), entries[1]);
    graph::add_linear(lin, usize::from(near.list[1]), entries[2]);
    graph::add_linear(lin, usize::from(near.list[2]), entries[4]);
    add_pairs(edges, masks, near, entries);
    constant + entries[0]
}
