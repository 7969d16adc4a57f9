// "A body is broken unless ..."
#![tactic(auto)]

ghost use Rattle.std.specs.Prelude.{◌≡◌, ◌&&◌, ◌≤◌, false, leb, ltb, eqb, nat_abs, length, MatchOption};
ghost use Rattle.std.specs.List.{list_all};
ghost use Rattle.whole.specs.Words.{upto, all, bit};
ghost use Rattle.rules.specs.Record.{is_none, choice_limit, step_fine, stepped, broken};
ghost use Rattle.broken.specs.Masks.{alone, place_asked, all_known, Sorted, MasksOf, near_asked, step_asked};

use mark::Mark;
use rules::{Record, Step};

mod mark; // a state byte

// The mask of j alone; none for a byte that is no decision, which `whole::single` does not take.
fn only(j: u8) -> u64
    ensures { result ≡ alone j }
{
    if j < 64 { 1 << j } else { 0 }
}

// The decisions that are not fixed, and those that are eliminated.
#[derive(Clone, Copy)]
struct States {
    unfixed: u64,
    eliminated: u64,
}

// Those of some states; none where a state is not known.
fn states_of(states: &[u8]) -> Option<States>
    requires { length states.now ≤ 64 }
    ensures { MatchOption result (all_known states.now ≡ false) (Sorted states.now) }
{
    let mut sorted = States {
        unfixed: 0,
        eliminated: 0,
    };
    for (i, state) in states.iter().enumerate() {
        match mark::mark_of(*state)? {
            Mark::Fixed(_) => {}
            Mark::Remaining => sorted.unfixed |= 1 << i,
            Mark::Eliminated => {
                sorted.unfixed |= 1 << i;
                sorted.eliminated |= 1 << i;
            }
        }
    }
    Some(sorted)
}

// Is each byte zero?
pub fn zero_bytes(bytes: &[u8]) -> bool
    ensures { result ≡ list_all (λ b. eqb b 0) bytes.now }
{
    bytes.iter().all(|b| *b == 0)
}

// One of a step's three places: a free neighbour where it is used, else zero.
fn place_fine(free: u64, used: bool, j: u8) -> bool
    ensures { result ≡ place_asked free used j }
{
    if used {
        whole::has(free, usize::from(j))
    } else {
        j == 0
    }
}

// No choice for a mask that d neighbours do not have.
fn choices_fine(d: u8, choices: u8) -> bool
    ensures { result ≡ ltb choices (choice_limit d) }
{
    match d {
        0 => choices < 2,
        1 => choices < 4,
        2 => choices < 16,
        _ => true,
    }
}

// The degree, the neighbours, and what is unused.
fn near_fine(free: u64, s: Step) -> bool
    ensures { result ≡ near_asked free s }
{
    let d = s.degree;
    d <= 3
        && (d < 2 || s.first < s.second)
        && (d < 3 || s.second < s.third)
        && place_fine(free, d > 0, s.first)
        && place_fine(free, d > 1, s.second)
        && place_fine(free, d > 2, s.third)
        && choices_fine(d, s.choices)
}

// A step: `due` has the eliminated decisions that no earlier step has, `free` those that may be its neighbours.
fn step_fine(due: u64, free: u64, s: Step) -> bool
    ensures { result ≡ step_asked due free s }
{
    whole::has(due, usize::from(s.decision)) && near_fine(free, s)
}

// Each step is fine, and each eliminated decision is some step's. `decided` has the decisions of the steps so far.
fn steps_fine(r: Record, unfixed: u64, eliminated: u64) -> bool
    requires { MasksOf r unfixed eliminated }
    ensures { result ≡ (all (step_fine r) (upto r.count) && all (stepped r) (upto r.n)) }
{
    let mut decided: u64 = 0;
    for s in &r.steps[..r.count as usize] {
        let after = decided | only(s.decision);
        let due = whole::without(eliminated, decided);
        let free = whole::without(unfixed, after);
        if !step_fine(due, free, *s) {
            return false;
        }
        decided = after;
    }
    whole::without(eliminated, decided) == 0
}

// No step is used.
fn unused(steps: &[Step]) -> bool
    ensures { result ≡ list_all is_none steps.now }
{
    steps.iter().all(|s| *s == Step::default())
}

// "the constant is within ±2^40"
fn constant_fine(z: i64) -> bool
    ensures { result ≡ leb (nat_abs z) 1099511627776 }
{
    z.unsigned_abs() <= 1099511627776
}

// n and the count make the other tests possible; then each is made.
pub fn is_broken(record: Record) -> bool
    ensures { result ≡ broken «record» }
{
    if record.n > 64 || record.count > 64 {
        return true;
    }
    let (states, past) = record.states.split_at(record.n as usize);
    let Some(masks) = states_of(states) else {
        return true;
    };
    let constant = constant_fine(record.constant);
    let ended = zero_bytes(past);
    let steps = steps_fine(record, masks.unfixed, masks.eliminated);
    let rest = unused(&record.steps[record.count as usize..]);
    !(constant && ended && steps && rest)
}
