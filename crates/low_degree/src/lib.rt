// Eliminating a decision that has at most two neighbours.
#![tactic(auto)]

ghost use Rattle.std.specs.Prelude.{◌≡◌, ◌<◌, ◌≤◌, ◌^◌, length, get_or, pos};
ghost use Rattle.std.specs.Int.Signed.{lt_z};
ghost use Rattle.whole.specs.Parts.{∣◌∣};
ghost use Rattle.whole.specs.Different.{Apart};
ghost use Rattle.whole.specs.Words.{below0};
ghost use Rattle.rules.specs.Eliminate.{absorb as absorbed, eliminate as eliminated, step_of};
ghost use Rattle.rules.specs.Record.{hold};
ghost use Rattle.rules.specs.Size.{Within};
ghost use Rattle.graph.specs.Near.{near_at};
ghost use Rattle.accepted_laws.specs.Small.{Small};
ghost use Rattle.low_degree.specs.Table.{deltas_of, tees_of, choice_bits, step_from, Tables};

use graph::{Graph, Near};
use rules::Step;

// The deltas of a decision's masks, and the smaller of each and 0.
#[derive(Clone, Copy)]
pub struct Table {
    pub deltas: [i64; 8],
    pub tees: [i64; 8],
}

// ---- the table of masks

// The choice is 1 only below 0.
pub fn chooses(delta: i64) -> bool
    ensures { result ≡ lt_z delta (pos 0) }
{
    delta < 0
}

// a plus the chosen edges, for each mask of three neighbours. A missing neighbour's edge is 0.
pub fn deltas(a: i64, near: Near) -> [i64; 8]
    requires { (∣ a ∣ ≤ 1099511627776) × Small 2199023255552 near.weights }
    ensures { result ≡ deltas_of a near.weights }
{
    let [x, y, z] = near.weights;
    [
        a,
        a + x,
        a + y,
        a + x + y,
        a + z,
        a + x + z,
        a + y + z,
        a + x + y + z,
    ]
}

pub fn tees(deltas: [i64; 8]) -> [i64; 8]
    ensures { result ≡ tees_of deltas }
{
    deltas.map(
        |d| -> i64
            ensures { result ≡ below0 d }
        { d.min(0) },
    )
}

// Of a decision of weight a, for every degree up to three.
pub fn table_of(a: i64, near: Near) -> Table
    requires { (∣ a ∣ ≤ 1099511627776) × Small 2199023255552 near.weights × (near.count ≤ 3) }
    ensures { Tables result a near }
{
    let deltas = deltas(a, near);
    Table {
        deltas,
        tees: tees(deltas),
    }
}

// Bit m is the choice for mask m, for the first `masks` of them.
pub fn choices(deltas: [i64; 8], masks: usize) -> u8
    requires { masks ≤ 8 }
    ensures { result ≡ choice_bits deltas masks }
{
    let mut bits = 0;
    for (m, &d) in deltas[..masks].iter().enumerate() {
        if chooses(d) {
            bits += 1 << m;
        }
    }
    bits
}

// How many masks some neighbours have.
pub fn masks(degree: usize) -> usize
    requires { degree ≤ 3 }
    ensures { result ≡ 2 ^ degree }
{
    1 << degree
}

pub fn step_of(i: usize, near: Near, deltas: [i64; 8]) -> Step
    requires { (i < 64) × (near.count ≤ 3) }
    ensures { result ≡ step_from i near deltas }
{
    let [first, second, third] = near.list;
    Step {
        decision: i as u8,
        degree: near.count as u8,
        first,
        second,
        third,
        choices: choices(deltas, masks(near.count)),
    }
}

// ---- the update

// The constant, at most two neighbours and their edge gain what the table t says.
pub fn absorb(g: &mut Graph, t: [i64; 8], ends: &[usize])
    requires { Apart 64 ends.now × (length ends.now ≤ 2) × Within g.old × Small (2 ^ 50) t × (length ends.now ≡ 2 → Apart g.old.n ends.now) }
    ensures { g.new ≡ absorbed (λ m. get_or t m (pos 0)) ends.now g.old }
{
    let [t0, t1, t2, t3, ..] = t;
    g.add_constant(t0);
    match *ends {
        [] => {}
        [j] => g.add_linear(j, t1 - t0),
        [j, k, ..] => {
            g.add_linear(j, t1 - t0);
            g.add_linear(k, t2 - t0);
            g.add_edge(j, k, t3 - t1 - t2 + t0);
        }
    }
}

// i leaves, and what it would have chosen goes to its neighbours.
pub fn eliminate(g: &mut Graph, near: Near, i: usize) -> Step
    requires { (i < 64) × Within g.old × (near ≡ near_at g.old i) × (near.count ≤ 2) }
    ensures { (g.new ≡ eliminated i g.old) × (result ≡ hold (step_of g.old i)) }
{
    g.known();
    let Table { deltas, tees } = table_of(g.linear(i), near);
    g.drop_to(3, i);
    let ends = [usize::from(near.list[0]), usize::from(near.list[1])];
    absorb(g, tees, &ends[..near.count]);
    step_of(i, near, deltas)
}
