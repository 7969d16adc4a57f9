// The working graph: the atomic updates, building it from the lists, fixing.
#![tactic(auto)]

ghost use Rattle.std.specs.Prelude.{◌≡◌, ℕ, ◌+◌, ◌*◌, ◌<◌, ◌≤◌, length, get_or, nat_abs, ◌+ℤ◌};
ghost use Rattle.std.specs.Int.{w64};
ghost use Rattle.std.proofs.Common.{SFits};
ghost use Rattle.whole.specs.Words.{tab};
ghost use Rattle.whole.specs.Masks.{these};
ghost use Rattle.rules.specs.Graph.{lin, edge, active, bare, neighbours, degree, add_constant, add_linear, add_edge, add_term, add_terms, drop_to};
ghost use Rattle.rules.specs.Fixing.{fix, fix_all, start};
ghost use Rattle.rules.specs.Given.{of_lists};
ghost use Rattle.rules.specs.Objective.{objective, weight_of};
ghost use Rattle.accepted_laws.specs.Accept.{Fit};
ghost use Rattle.accepted_laws.specs.Mass.{mass};
ghost use Rattle.graph.specs.Near.{near_at};
ghost use Rattle.graph.specs.Shows.{Shows};
ghost use Rattle.graph.specs.Whole.{Whole};

mod shown;

use rules::Objective;
pub use shown::{add_edge, add_linear, add_term, add_terms, marked, wipe};
use std::marker::Model;
use whole::Members;

// How many neighbours a decision has, and of the first three, ascending, which they are and its edges to them; zeros where there are fewer.
// Kept: arrays with a count beside them, since the table of eight masks reads all three places, zeros past the count too.
#[derive(Clone, Copy)]
pub struct Near {
    pub list: [u8; 3],
    pub weights: [i64; 3],
    pub count: usize,
}

// The graph of 01, with a mask of its neighbours for each decision.
#[derive(Drop)]
pub struct Graph {
    n: usize,
    constant: i64,
    linear: [i64; 64],
    edges: [i64; 4096],
    masks: [u64; 64],
    states: [u8; 64],
}

impl Model for Graph {
    ghost use Rattle.std.specs.Prelude.{◌≤◌};
    ghost use Rattle.rules.specs.Graph as rule;
    ghost use Rattle.graph.specs.Shows.{Shows};

    ghost Value = { rule.Graph };

    ghost view = { λ g. rule.graph g.n g.constant g.linear g.edges g.states };

    ghost invariant = { λ g. (g.n ≤ 64) × Shows g.n g.edges g.masks };
}

// ---- reading
impl Graph {
    pub fn n(&self) -> usize
        ensures { result ≡ self.now.n }
    {
        self.n
    }

    pub fn constant(&self) -> i64
        ensures { result ≡ self.now.constant }
    {
        self.constant
    }

    pub fn linear(&self, i: usize) -> i64
        requires { i < 64 }
        ensures { result ≡ lin self.now i }
    {
        self.linear[i]
    }

    pub fn edge(&self, i: usize, j: usize) -> i64
        requires { (i < 64) × (j < 64) }
        ensures { result ≡ edge self.now i j }
    {
        self.edges[64 * i + j]
    }

    pub fn state(&self, i: usize) -> u8
        requires { i < 64 }
        ensures { result ≡ get_or self.now.states i 0 }
    {
        self.states[i]
    }

    pub fn is_active(&self, i: usize) -> bool
        requires { i < 64 }
        ensures { result ≡ active self.now i }
    {
        self.states[i] == 2
    }

    pub fn states(&self) -> &[u8; 64]
        ensures { result.now ≡ self.now.states }
    {
        &self.states
    }

    pub fn weights(&self) -> &[i64; 64]
        ensures { result.now ≡ self.now.linear }
    {
        &self.linear
    }

    // All of them, i's with j at 64 i + j.
    pub fn edges(&self) -> &[i64; 4096]
        ensures { result.now ≡ self.now.edges }
    {
        &self.edges
    }

    // Its neighbours, a bit for each.
    pub fn mask(&self, i: usize) -> u64
        requires { i < 64 }
        ensures { these result ≡ neighbours self.now i }
    {
        self.masks[i]
    }

    pub fn masks(&self) -> &[u64; 64]
        ensures { Shows self.now.n self.now.edges result.now }
    {
        &self.masks
    }

    // What a graph's lists are like, which they do not say by themselves.
    pub fn known(&self)
        ensures { Whole self.now }
    {
        let _ = &self.n;
    }

    #[tactic(auto, using(crate::specs::MaskLaws::these_head))]
    pub fn neighbours(&self, i: usize) -> Near
        requires { i < 64 }
        ensures { result ≡ near_at self.now i }
    {
        let mut near = Near {
            list: [0; 3],
            weights: [0; 3],
            count: 0,
        };
        for j in Members(self.masks[i]) {
            if near.count < 3 {
                near.list[near.count] = j as u8;
                near.weights[near.count] = self.edges[64 * i + j];
            }
            near.count += 1;
        }
        near
    }

    pub fn degree(&self, i: usize) -> usize
        requires { i < 64 }
        ensures { result ≡ degree self.now i }
    {
        self.masks[i].count_ones() as usize
    }

    // i's edges, one for each decision.
    pub fn row(&self, i: usize) -> [i64; 64]
        requires { i < 64 }
        ensures { result ≡ tab (λ j. edge self.now i j) 64 }
    {
        let mut row = [0; 64];
        row.copy_from_slice(&self.edges[64 * i..64 * i + 64]);
        row
    }
}

// ---- the atomic updates
impl Graph {
    pub fn add_constant(&mut self, v: i64)
        requires { SFits w64 (self.old.constant +ℤ v) }
        ensures { self.new ≡ add_constant v self.old }
    {
        self.constant += v;
    }

    pub fn add_linear(&mut self, k: usize, v: i64)
        requires { (k < 64) × SFits w64 (lin self.old k +ℤ v) }
        ensures { self.new ≡ add_linear k v self.old }
    {
        shown::add_linear(&mut self.linear, k, v);
    }

    pub fn add_edge(&mut self, k: usize, l: usize, v: i64)
        requires { (k < self.old.n) × (l < self.old.n) × SFits w64 (edge self.old k l +ℤ v) }
        ensures { self.new ≡ add_edge k l v self.old }
    {
        shown::add_edge(&mut self.edges, &mut self.masks, k, l, v);
    }

    // i leaves with a state, and with its weight and its edges.
    pub fn drop_to(&mut self, s: u8, i: usize)
        requires { i < 64 }
        ensures { self.new ≡ drop_to s i self.old }
    {
        self.linear[i] = 0;
        shown::wipe(&mut self.edges, &mut self.masks, i);
        self.states[i] = s;
    }
}

// ---- fixing
impl Graph {
    // i is fixed to v.
    #[tactic(auto, using(crate::specs::MaskLaws::these_head))]
    pub fn fix(&mut self, i: usize, v: u8)
        requires { (i < 64) × (v < 2) × (mass self.old ≤ 2199023255552) }
        ensures { (self.new ≡ fix i v self.old) × (mass self.new ≤ mass self.old) }
    {
        if v == 0 {
            self.drop_to(0, i);
            return;
        }
        let near = self.mask(i);
        let row = self.row(i);
        let a = self.linear[i];
        self.drop_to(1, i);
        self.add_constant(a);
        for j in Members(near) {
            self.add_linear(j, row[j]);
        }
    }

    // Ascending; 2 is free.
    pub fn fix_all(&mut self, fixings: &[u8])
        requires { (length fixings.now ≤ 64) × (mass self.old ≤ 2199023255552) }
        ensures { (self.new ≡ fix_all 0 fixings.now self.old) × (mass self.new ≤ 2199023255552) }
    {
        for (i, v) in fixings.iter().enumerate() {
            if *v < 2 {
                self.fix(i, *v);
            }
        }
    }
}

// ---- building
impl Graph {
    pub fn add_term(&mut self, i: usize, j: usize, w: i64)
        requires { (i < self.old.n) × (j < self.old.n) × (weight_of self.old.linear + weight_of self.old.edges + 2 * nat_abs w ≤ 2199023255552) }
        ensures { (self.new ≡ add_term i j w self.old)
            × (weight_of self.new.linear + weight_of self.new.edges ≤ weight_of self.old.linear + weight_of self.old.edges + 2 * nat_abs w) }
    {
        shown::add_term(&mut self.linear, &mut self.edges, &mut self.masks, i, j, w);
    }

    pub fn add_terms(&mut self, o: Objective)
        requires { ((k : ℕ) → k < length o.firsts.now → get_or o.firsts.now k 0 < self.old.n)
            × ((k : ℕ) → k < length o.seconds.now → get_or o.seconds.now k 0 < self.old.n)
            × (weight_of self.old.linear + weight_of self.old.edges + 2 * weight_of o.term_weights.now ≤ 2199023255552) }
        ensures { (self.new ≡ add_terms o.entry.firsts.now o.entry.seconds.now o.entry.term_weights.now self.old)
            × (weight_of self.new.linear + weight_of self.new.edges ≤ 2199023255552) }
    {
        shown::add_terms(
            &mut self.linear,
            &mut self.edges,
            &mut self.masks,
            o.firsts,
            o.seconds,
            o.term_weights,
        );
    }

    // The decisions of an objective, with no term yet.
    pub fn bare(o: Objective) -> Graph
        requires { Fit (of_lists o) }
        ensures { result ≡ bare (of_lists o.entry) }
    {
        let n = o.n as usize;
        let mut linear = [0; 64];
        linear[..n].copy_from_slice(o.weights);
        let mut states = [0; 64];
        states[..n].fill(2);
        Graph {
            n,
            constant: 0,
            linear,
            edges: [0; 4096],
            masks: [0; 64],
            states,
        }
    }

    // The graph of an objective that is not refused, fixed, in place: it is large. It does not look at the switches and the budget.
    pub fn begin(&mut self, o: Objective)
        requires { Fit (of_lists o) × (self.old ≡ bare (of_lists o)) }
        ensures { (self.new ≡ start (of_lists o.entry)) × (mass self.new ≤ 2199023255552)
            × ((switches budget : ℕ) → self.new ≡ start (objective o.entry.n o.entry.weights.now o.entry.firsts.now o.entry.seconds.now o.entry.term_weights.now o.entry.fixings.now switches budget)) }
    {
        self.add_terms(o);
        self.fix_all(o.fixings);
    }
}
