// The outputs, over the remaining decisions alone.
#![tactic(auto)]

ghost use Rattle.std.specs.Prelude.{◌≡◌, ℕ, ◌<◌, ◌≤◌, length, replicate, pos};
ghost use Rattle.whole.specs.Words.{tab};
ghost use Rattle.graph.specs.Shows.{Shows};
ghost use Rattle.outputs.specs.Out.{rest, active_of, Places, MaskShows, linear_at, edge_at, entry_of};
ghost use Rattle.outputs.specs.Listing.{Turned};

use whole::Members;

// The decisions that remain, and the place of each among them; 64 for one that does not.
// Kept: arrays with a count beside them, and 64 for no place: it is copied, and callers read all three.
#[derive(Clone, Copy)]
pub struct Remaining {
    pub list: [u8; 64],
    pub len: usize,
    pub places: [u8; 64],
}

// The active decisions, ascending.
// Kept: the states alone, since any 64 states may be given and not only a graph's.
pub fn still_there(states: &[u8; 64], n: usize) -> Remaining
    requires { n ≤ 64 }
    ensures { (rest result ≡ active_of states.now n) × Places result.list result.len × Turned result.list result.places result.len }
{
    let mut r = Remaining {
        list: [0; 64],
        len: 0,
        places: [64; 64],
    };
    for i in 0..n {
        let is_active = states[i] == 2;
        if is_active {
            r.list[r.len] = i as u8;
            r.places[i] = r.len as u8;
            r.len += 1;
        }
    }
    r
}

// The weights of those that remain, then zeros.
// Kept: an array, since any weights may be given, with a list in any order.
#[tactic(auto, using(crate::proofs::Weights::weights_begin, crate::proofs::Weights::weights_more, crate::proofs::Weights::weights_end, crate::specs::RestLaws::linear_out_lem, crate::specs::RestLaws::rest_few))]
pub fn write_linear(linear: &mut [i64], weights: &[i64; 64], r: Remaining)
    requires { (length linear.old ≡ 64) × Places r.list r.len }
    ensures { linear.new ≡ tab (linear_at weights.now r.list r.len) 64 }
{
    linear.fill(0);
    for (k, i) in r.list[..r.len].iter().enumerate() {
        linear[k] = weights[*i as usize];
    }
}

// The row of i, whose neighbours are those of the mask m: its edges to those that remain.
#[tactic(auto, using(graph::specs::MaskLaws::these_head))]
fn write_row(row: &mut [i64], e: &[i64; 4096], m: u64, i: usize, r: &Remaining)
    requires { (row.old ≡ replicate 64 (pos 0)) × (i < 64) × Places r.now.list r.now.len × Turned r.now.list r.now.places r.now.len × MaskShows m i e.now }
    ensures { row.new ≡ tab (entry_of e.now (rest r.now) i) 64 }
{
    for j in Members(m) {
        let b = r.places[j] as usize;
        if b < r.len {
            row[b] = e[64 * i + j];
        }
    }
}

// A row for each that remains; the rows below are zeros.
// Kept: arrays, since any edges may be given with masks that show them, and a list in any order.
pub fn write_edges(edges: &mut [i64], e: &[i64; 4096], masks: &[u64; 64], r: Remaining)
    requires { (length edges.old ≡ 4096) × Places r.list r.len × Turned r.list r.places r.len × ((k : ℕ) × Shows k e.now masks.now) }
    ensures { edges.new ≡ tab (edge_at e.now r.list r.len) 4096 }
{
    edges[..4096].fill(0);
    for (a, d) in r.list[..r.len].iter().enumerate() {
        let i = *d as usize;
        write_row(&mut edges[64 * a..64 * a + 64], e, masks[i], i, &r);
    }
}
