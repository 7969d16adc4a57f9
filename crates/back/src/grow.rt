// An answer is grown back.
ghost use Rattle.std.specs.Prelude.{◌≡◌, false, length};
ghost use Rattle.rules.specs.Record.{broken};
ghost use Rattle.rules.specs.Refuse.{first_row, answer_rows};
ghost use Rattle.rules.specs.Call.{grown};
ghost use Rattle.rules.specs.Numbers.{answer_of};
ghost use Rattle.back.specs.Calls.{Answers, GrownBack, GrownBackBlock};

use crate::{bytes, plans, play};
use refusal::row;
use rules::{Record, Refusal};

// An answer for an unbroken record.
fn grow_unbroken(record: Record, answer: &[u8], plan: &mut [u8]) -> Result<(), Refusal>
    requires { broken «record» ≡ false }
    ensures { Answers (first_row (answer_rows «record» answer.now (length plan.old))) (grown «record» answer.now) plan.old (answer_of result) plan.new }
{
    let n = record.n as usize;
    let states = &record.states[..n];
    let long = plans::remaining(states);
    bytes::bytes_refusal(record, long, answer, plan.len())?;
    let placed = plans::placed(states, answer);
    let full = play::play_back(&record.steps[..record.count as usize], placed);
    plan.copy_from_slice(&full[..n]);
    Ok(())
}

// Refuses with 12, 7, 8.
pub fn grow_back(record: Record, answer: &[u8], plan: &mut [u8]) -> Result<(), Refusal>
    ensures { GrownBack «record» answer.now plan.old (answer_of result) plan.new }
{
    row(broken::is_broken(record), Refusal::Body)?;
    grow_unbroken(record, answer, plan)
}

// Refuses with 9, 10, 11, 12, 7, 8.
pub fn grow_back_block(block: &[u8], answer: &[u8], plan: &mut [u8]) -> Result<(), Refusal>
    ensures { GrownBackBlock block.now answer.now plan.old (answer_of result) plan.new }
{
    let record = record::read::read_record(block)?;
    grow_unbroken(record, answer, plan)
}
