// The refusal table of an objective: "given exactly when its row holds and no row above it does". Each test is asked in its order.
#![tactic(auto)]

ghost use Rattle.std.specs.Prelude.{◌≡◌, cond, ◌+◌, ◌≤◌, min, leb};
ghost use Rattle.whole.specs.Words.{some};
ghost use Rattle.rules.specs.Objective.{weight_of};
ghost use Rattle.rules.specs.Refuse.{first_row, over, bad_lengths, bad_index, bad_lent, too_heavy, list_rows, reduce_rows};
ghost use Rattle.rules.specs.Numbers.{number_of, answer_of};
ghost use Rattle.rules.specs.Given.{of_lists};

use rules::{Objective, Refusal};

// A row of the table: its refusal where it holds.
pub fn row(held: bool, refusal: Refusal) -> Result<(), Refusal>
    ensures { answer_of result ≡ cond held (number_of refusal) 0 }
{
    if held {
        return Err(refusal);
    }
    Ok(())
}

// The weight of the list and what came before it, no further than one over 2^40.
fn weigh(start: u64, weights: &[i64]) -> u64
    requires { start ≤ 1099511627777 }
    ensures { result ≡ min 1099511627777 (start + weight_of weights.now) }
{
    let mut sum = start;
    for w in weights {
        sum = sum.saturating_add(w.unsigned_abs());
        if sum > 1099511627776 {
            return 1099511627777;
        }
    }
    sum
}

// Row 2; `others`: another length that the caller has is wrong.
#[tactic(auto, unfolding(rules::specs::Refuse::bad_lengths, whole::specs::Words::one_of))]
fn bad_lengths(o: Objective, others: bool) -> bool
    ensures { result ≡ bad_lengths (of_lists o.entry) others }
{
    let terms = o.firsts.len();
    o.weights.len() != o.n as usize
        || o.seconds.len() != terms
        || o.term_weights.len() != terms
        || terms > 4096
        || others
}

// Row 3.
fn bad_index(o: Objective) -> bool
    ensures { result ≡ bad_index (of_lists o.entry) }
{
    o.firsts.iter().any(|i| *i >= o.n) || o.seconds.iter().any(|i| *i >= o.n)
}

// Row 6.
pub fn too_heavy(o: Objective) -> bool
    ensures { result ≡ too_heavy (of_lists o.entry) }
{
    weigh(weigh(0, o.weights), o.term_weights) > 1099511627776
}

// Rows 1 to 3, which every objective has.
#[tactic(auto, unfolding(rules::specs::Refuse::first_row))]
pub fn list_rows(o: Objective, others: bool) -> Result<(), Refusal>
    ensures { answer_of result ≡ first_row (list_rows (of_lists o.entry) others) }
{
    row(o.n > 64, Refusal::Decisions)?;
    row(bad_lengths(o, others), Refusal::Lengths)?;
    row(bad_index(o), Refusal::Index)
}

// What reduce asks of lengths besides; `others`: another length that the caller has is wrong.
#[tactic(auto, unfolding(rules::specs::Refuse::bad_lent, whole::specs::Words::one_of))]
fn bad_lent(o: Objective, l: usize, e: usize, others: bool) -> bool
    ensures { result ≡ bad_lent (of_lists o.entry) l e others }
{
    o.fixings.len() != o.n as usize || l != 64 || e != 4096 || others
}

// The first row of reduce's that holds.
pub fn refusal(o: Objective, l: usize, e: usize, others: bool) -> Result<(), Refusal>
    ensures { answer_of result ≡ first_row (reduce_rows (of_lists o.entry) l e others) }
{
    list_rows(o, bad_lent(o, l, e, others))?;
    row(o.fixings.iter().any(|x| *x > 2), Refusal::Fixing)?;
    row(o.switches > 15, Refusal::Switches)?;
    row(too_heavy(o), Refusal::Weight)
}
