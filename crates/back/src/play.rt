// "then the steps last to first, each by its choice for the mask of its neighbours' values", over a plan of 64.
ghost use Rattle.std.specs.Prelude.{◌≡◌, cond, map, get_or};
ghost use Rattle.whole.specs.Words.{bit, one_if};
ghost use Rattle.rules.specs.Record.{near_of, played};
ghost use Rattle.rules.specs.Back.{mask_of, play, play_all};

use rules::Step;

// The value at neighbour j where the step has so many neighbours, else 0.
fn value_of(plan: [u8; 64], counts: bool, j: u8) -> u8
    ensures { result ≡ cond counts (get_or plan j 0) 0 }
{
    if counts && j < 64 {
        plan[j as usize]
    } else {
        0
    }
}

// "the mask of its neighbours' values": neighbour k is bit k.
fn mask_of(s: Step, plan: [u8; 64]) -> usize
    ensures { result ≡ mask_of plan (near_of s) }
{
    let first = value_of(plan, s.degree >= 1, s.first);
    let second = value_of(plan, s.degree >= 2, s.second);
    let third = value_of(plan, s.degree >= 3, s.third);
    usize::from(first) + 2 * (usize::from(second) + 2 * usize::from(third))
}

// Bit `mask` of the choices; a byte has none from 8 on.
fn choice(choices: u8, mask: usize) -> u8
    ensures { result ≡ one_if (bit choices mask) }
{
    if mask < 8 { (choices >> mask) % 2 } else { 0 }
}

// One step, by value. A decision past the plan changes nothing.
pub fn play_step(s: Step, plan: [u8; 64]) -> [u8; 64]
    ensures { result ≡ play (played s) plan }
{
    let mask = mask_of(s, plan);
    let value = choice(s.choices, mask);
    let at = s.decision as usize;
    let mut next = plan;
    if at < 64 {
        next[at] = value;
    }
    next
}

// The steps, from the last of them to the first.
pub fn play_back(steps: &[Step], plan: [u8; 64]) -> [u8; 64]
    ensures { result ≡ play_all (map played steps.now) plan }
{
    let mut x = plan;
    for s in steps.iter().rev() {
        let next = play_step(*s, x);
        x = next;
    }
    x
}
