// The search for a small block, by the masks of the graph: bit j of near[i] is set where i and j are neighbours.
// Who is removed or set aside is a mask as well, and 0 where nobody is.
#![tactic(auto)]

ghost use Rattle.std.specs.Prelude.{◌≡◌, true, false, not, ◌&&◌, leb, ◌∷◌, [], ◌++◌, ℕ, ◌+◌, ◌<◌, ◌≤◌, length, get_or};
ghost use Rattle.whole.specs.Words.{mem, bit, those, some};
ghost use Rattle.whole.specs.Masks.{these};
ghost use Rattle.rules.specs.Graph.{neighbours};
ghost use Rattle.rules.specs.SmallBlock.{component, boundary, is_cut, among, over_cuts, search as searched, find_block};
ghost use Rattle.cost_laws.specs.Growth.{Network};
ghost use Rattle.small_block.specs.ByMasks.{near_by, block_of};
ghost use Rattle.small_block.specs.Explored.{GrownAs};

mod decisions;

pub use decisions::Decisions;
use graph::Graph;
use whole::{Members, has, single};

// The component of seed, and a mask of it and of who is set aside.
fn grow(near: &[u64; 64], aside: u64, seed: usize) -> (Decisions, u64)
    requires { Network 64 (near_by near.now) × (seed < 64) × (bit aside seed ≡ false) }
    ensures { GrownAs (near_by near.now) (these aside) seed result.0 result.1 }
{
    let mut found = Decisions::new();
    let mut seen = aside | single(seed);
    found.join(single(seed));
    let mut done = 0;
    // Kept: counted by hand, since the loop goes through members that it joins itself, which no iterator could lend.
    while let Some(&i) = found.as_slice().get(done) {
        let new = whole::without(near[i], seen);
        seen |= new;
        found.join(new);
        done += 1;
    }
    (found, seen)
}

// Is one of these decisions not reached from u, with some set aside? Stops as soon as all are reached.
fn falls_apart(near: &[u64; 64], aside: u64, u: usize, around: u64) -> bool
    requires { Network 64 (near_by near.now) × (u < 64) × (bit aside u ≡ false) × ((k : ℕ) → mem k (these around) ≡ true → bit aside k ≡ false) }
    ensures { result ≡ some (λ v. not (mem v (component (near_by near.now) (these aside) u))) (these around) }
{
    let mut todo = Members(single(u));
    let mut seen = aside | todo.0;
    let mut left = whole::without(around, seen);
    // Kept: over what is left to reach, since each turn's set depends on what the one before reached.
    while left != 0 {
        let Some(j) = todo.next() else {
            return true;
        };
        let new = whole::without(near[j], seen);
        seen |= new;
        todo.0 |= new;
        left = whole::without(left, new);
    }
    false
}

// Is c a cut: do its neighbours but for the removed one fall apart without the two? All of them are asked whether the first reaches them.
fn is_cut(near: &[u64; 64], c: usize, removed: u64) -> bool
    requires { Network 64 (near_by near.now) × (c < 64) }
    ensures { result ≡ is_cut (near_by near.now) (these removed) c }
{
    if has(removed, c) {
        return false;
    }
    let around = whole::without(near[c], removed);
    match Members(around).next() {
        Some(u) => falls_apart(near, single(c) | removed, u, around),
        None => false,
    }
}

// 2 to 8 members.
fn is_small(count: usize) -> bool
    ensures { result ≡ (leb 2 count && leb count 8) }
{
    (2..=8).contains(&count)
}

// The first small component, from the lowest unseen decision up, with some set aside.
fn first_small(near: &[u64; 64], live: u64, aside: u64) -> Option<Decisions>
    requires { Network 64 (near_by near.now) }
    ensures { block_of result ≡ among (near_by near.now) (these aside) (these aside) (these live) }
{
    let mut seen = aside;
    for s in Members(live) {
        if !has(seen, s) {
            let (found, reached) = grow(near, aside, s);
            if is_small(found.as_slice().len()) {
                return Some(found);
            }
            seen |= reached;
        }
    }
    None
}

// The cuts among the live decisions, for a removed one or none. All that the search asks about cuts, it asks here.
pub fn cuts(near: &[u64; 64], live: u64, removed: u64) -> u64
    requires { Network 64 (near_by near.now) }
    ensures { these result ≡ those (is_cut (near_by near.now) (these removed)) (these live) }
{
    whole::those(live, |c| is_cut(near, c, removed))
}

// For each cut ascending.
fn over_cuts(near: &[u64; 64], live: u64, removed: u64) -> Option<Decisions>
    requires { Network 64 (near_by near.now) }
    ensures { block_of result ≡ over_cuts (near_by near.now) (these live) (these removed) (these live) }
{
    for c in Members(cuts(near, live, removed)) {
        if let Some(found) = first_small(near, live, single(c) | removed) {
            return Some(found);
        }
    }
    None
}

// The first small block: with none removed, then for each removed decision ascending.
fn search(near: &[u64; 64], live: u64) -> Option<Decisions>
    requires { Network 64 (near_by near.now) }
    ensures { block_of result ≡ searched (near_by near.now) (these live) }
{
    if let Some(found) = over_cuts(near, live, 0) {
        return Some(found);
    }
    for r in Members(live) {
        if let Some(found) = over_cuts(near, live, single(r)) {
            return Some(found);
        }
    }
    None
}

// The first small block of a graph of which no decision is its own neighbour.
pub fn find_block(g: &Graph) -> Option<Decisions>
    requires { Network 64 (neighbours g.now) }
    ensures { block_of result ≡ find_block g.now }
{
    g.known();
    let active = whole::those(u64::MAX, |i| i < g.n() && g.is_active(i));
    search(g.masks(), active)
}

// The outside neighbours of a block's members, ascending.
pub fn boundary_of(g: &Graph, members: &[usize]) -> Decisions
    requires { (k : ℕ) → k < length members.now → get_or members.now k 0 < 64 }
    ensures { result ≡ boundary g.now members.now }
{
    g.known();
    let masks = g.masks();
    let mut joined = 0;
    let mut own = 0;
    for &i in members {
        joined |= masks[i];
        own |= single(i);
    }
    let mut outside = Decisions::new();
    outside.join(whole::without(joined, own));
    outside
}
