// The cheapest interior mask of a block, for a filling of its boundary.
#![tactic(auto)]

ghost use Rattle.std.specs.Prelude.{◌≡◌, ◌<◌, ◌≤◌, length};
ghost use Rattle.whole.specs.Parts.{∣◌∣};
ghost use Rattle.whole.specs.Words.{chosen};
ghost use Rattle.rules.specs.Graph.{row};
ghost use Rattle.rules.specs.Size.{Within};
ghost use Rattle.rules.specs.SmallBlock.{inner};
ghost use Rattle.block_minima.specs.Weights.{weights, Listed, Minimum};

// The sum of i's edges to the decisions of a list that a mask chooses.
fn pull(linear: &[i64; 64], edges: &[i64; 4096], i: usize, list: &[usize], mask: usize) -> i64
    requires { Within (weights linear.now edges.now) × Listed list.now × (i < 64) }
    ensures { (result ≡ chosen (row (weights linear.now edges.now) i list.now) mask) × (∣ result ∣ ≤ 17592186044416) }
{
    let mut sum = 0;
    let mut rest = mask;
    for &j in list {
        if rest % 2 == 1 {
            sum += edges[64 * i + j];
        }
        rest /= 2;
    }
    sum
}

// The members' own cost at an interior mask and a filling of the boundary.
fn inner_cost(
    linear: &[i64; 64],
    edges: &[i64; 4096],
    members: &[usize],
    outside: &[usize],
    filling: usize,
    mask: usize,
) -> i64
    requires { Within (weights linear.now edges.now) × Listed members.now × Listed outside.now × (length outside.now ≤ 2) }
    ensures { result ≡ inner (weights linear.now edges.now) outside.now filling members.now mask }
{
    let mut sum = 0;
    let mut rest = mask;
    let mut left = members;
    while let Some((&i, later)) = left.split_first() {
        if rest % 2 == 1 {
            let out = pull(linear, edges, i, outside, filling);
            let within = pull(linear, edges, i, later, rest / 2);
            sum += linear[i] + out + within;
        }
        rest /= 2;
        left = later;
    }
    sum
}

// A mask and what it costs.
#[derive(Clone, Copy, Default)]
pub struct Best {
    pub mask: usize,
    pub cost: i64,
}

// The lowest of the cheapest interior masks.
pub fn cheapest_mask(
    linear: &[i64; 64],
    edges: &[i64; 4096],
    members: &[usize],
    outside: &[usize],
    filling: usize,
) -> Best
    requires { Within (weights linear.now edges.now) × Listed members.now × Listed outside.now × (length outside.now ≤ 2) }
    ensures { Minimum (inner (weights linear.now edges.now) outside.now filling members.now) (length members.now) result.mask result.cost }
{
    let mut best = 0;
    let mut least = inner_cost(linear, edges, members, outside, filling, 0);
    for m in 1..1 << members.len() {
        let cost = inner_cost(linear, edges, members, outside, filling, m);
        if cost < least {
            least = cost;
            best = m;
        }
    }
    Best {
        mask: best,
        cost: least,
    }
}
