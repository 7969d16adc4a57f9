// Eliminating a decision that has three neighbours, where that leaves no cubic term.
#![tactic(auto)]

ghost use Rattle.std.specs.Prelude.{◌≡◌, cond, ℕ, ◌<◌, ◌^◌, get_or, pos};
ghost use Rattle.whole.specs.Words.{tab};
ghost use Rattle.rules.specs.Eliminate.{step_of};
ghost use Rattle.rules.specs.DegreeThree.{moebius as transformed, cubic, pairs, add_pairs, absorb3, eliminate3};
ghost use Rattle.rules.specs.Record.{hold};
ghost use Rattle.rules.specs.Size.{Within};
ghost use Rattle.graph.specs.Near.{near_at};
ghost use Rattle.accepted_laws.specs.Small.{Small};

mod apart;

pub use apart::{absorb_three, add_pairs};
use graph::{Graph, Near};
use low_degree::Table;
use rules::Step;

// Two of three neighbours, and the Möbius entry that goes to their edge.
#[derive(Clone, Copy)]
pub struct Pair {
    pub low: usize,
    pub high: usize,
    pub mask: usize,
}

const PAIRS: [Pair; 3] = [
    Pair {
        low: 0,
        high: 1,
        mask: 3,
    },
    Pair {
        low: 0,
        high: 2,
        mask: 5,
    },
    Pair {
        low: 1,
        high: 2,
        mask: 6,
    },
];

// The three passes of the Möbius transform, a bit each.
pub fn moebius(t: [i64; 8]) -> [i64; 8]
    requires { Small (2 ^ 50) t }
    ensures { result ≡ tab (transformed (λ m. get_or t m (pos 0))) 8 }
{
    let [t0, t1, t2, t3, t4, t5, t6, t7] = t;
    let s1 = t1 - t0;
    let s3 = t3 - t2;
    let s5 = t5 - t4;
    let s7 = t7 - t6;
    let u2 = t2 - t0;
    let u3 = s3 - s1;
    let u6 = t6 - t4;
    let u7 = s7 - s5;
    let e4 = t4 - t0;
    let e5 = s5 - s1;
    let e6 = u6 - u2;
    let e7 = u7 - u3;
    [t0, s1, u2, u3, e4, e5, e6, e7]
}

// Each pair's edge gains its entry.
pub fn add_pairs_to(g: &mut Graph, near: Near, entries: [i64; 8])
    requires { ((k : ℕ) → k < 3 → get_or near.list k 0 < g.old.n) × Small 2199023255552 g.old.edges × Small (2 ^ 54) entries }
    ensures { g.new ≡ add_pairs (λ m. get_or entries m (pos 0)) near.list pairs g.old }
{
    for pair in PAIRS {
        let j = usize::from(near.list[pair.low]);
        let k = usize::from(near.list[pair.high]);
        g.add_edge(j, k, entries[pair.mask]);
    }
}

// The constant, the three neighbours and their pairs gain the entries.
pub fn absorb_three_into(g: &mut Graph, near: Near, entries: [i64; 8])
    requires { ((k : ℕ) → k < 3 → get_or near.list k 0 < g.old.n) × Within g.old × Small (2 ^ 54) entries }
    ensures { g.new ≡ absorb3 (λ m. get_or entries m (pos 0)) near.list g.old }
{
    g.known();
    g.add_constant(entries[0]);
    g.add_linear(usize::from(near.list[0]), entries[1]);
    g.add_linear(usize::from(near.list[1]), entries[2]);
    g.add_linear(usize::from(near.list[2]), entries[4]);
    add_pairs_to(g, near, entries);
}

// i leaves unless that takes a cubic term; then nothing is changed.
pub fn eliminate_three(g: &mut Graph, near: Near, i: usize) -> Option<Step>
    requires { (i < 64) × Within g.old × (near ≡ near_at g.old i) × (near.count ≡ 3) }
    ensures { (result ≡ cond (cubic g.old i) None (Some (hold (step_of g.old i))))
        × (g.new ≡ cond (cubic g.old i) g.old (eliminate3 i g.old)) }
{
    let Table { deltas, tees } = low_degree::table_of(g.linear(i), near);
    let entries = moebius(tees);
    if entries[7] != 0 {
        return None;
    }
    g.drop_to(3, i);
    absorb_three_into(g, near, entries);
    Some(low_degree::step_of(i, near, deltas))
}
