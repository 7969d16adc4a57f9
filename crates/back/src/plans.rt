// The bytes of a plan: put in from an answer, taken out for one. `states` are those of the decisions, at most 64.
ghost use Rattle.std.specs.Prelude.{◌≡◌, cond, ◌≤◌, eqb, length, get_or, take};
ghost use Rattle.rules.specs.Back.{place, remaining_of, project};

// The byte at a place; 0 past the end.
fn byte_at(bytes: &[u8], k: usize) -> u8
    ensures { result ≡ get_or bytes.now k 0 }
{
    bytes.get(k).copied().unwrap_or(0)
}

// What stands for a decision before any step is played: `given` where it remains, else its fixed value.
fn put_in(state: u8, given: u8) -> u8
    ensures { result ≡ cond (eqb state 2) given (cond (eqb state 1) 1 0) }
{
    match state {
        2 => given,
        1 => 1,
        _ => 0,
    }
}

// "Put in the remaining and fixed values."
pub fn placed(states: &[u8], answer: &[u8]) -> [u8; 64]
    requires { length states.now ≤ 64 }
    ensures { take (length states.now) result ≡ place states.now answer.now }
{
    let mut plan = [0; 64];
    let mut k: usize = 0;
    for (i, s) in states.iter().enumerate() {
        plan[i] = put_in(*s, byte_at(answer, k));
        if *s == 2 {
            k += 1;
        }
    }
    plan
}

// How many decisions remain.
pub fn remaining(states: &[u8]) -> usize
    ensures { result ≡ length (remaining_of states.now) }
{
    states.iter().filter(|s| **s == 2).count()
}

// "the remaining entries of a full plan, ascending, .. then zeros."
pub fn projected(states: &[u8], plan: &[u8]) -> [u8; 64]
    requires { length states.now ≤ 64 }
    ensures { take (length states.now) result ≡ project states.now plan.now }
{
    let mut out = [0; 64];
    let mut k: usize = 0;
    for (i, s) in states.iter().enumerate() {
        if *s == 2 {
            out[k] = byte_at(plan, i);
            k += 1;
        }
    }
    out
}
