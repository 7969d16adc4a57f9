// A full plan is projected.
ghost use Rattle.std.specs.Prelude.{◌≡◌, false, length};
ghost use Rattle.rules.specs.Record.{broken};
ghost use Rattle.rules.specs.Refuse.{first_row, plan_rows};
ghost use Rattle.rules.specs.Call.{projected};
ghost use Rattle.rules.specs.Numbers.{answer_of};
ghost use Rattle.back.specs.Calls.{Answers, Projected, ProjectedBlock};

use crate::{bytes, plans};
use refusal::row;
use rules::{Record, Refusal};

// A full plan for an unbroken record.
fn project_unbroken(record: Record, plan: &[u8], out: &mut [u8]) -> Result<(), Refusal>
    requires { broken «record» ≡ false }
    ensures { Answers (first_row (plan_rows «record» plan.now (length out.old))) (projected «record» plan.now) out.old (answer_of result) out.new }
{
    let n = record.n as usize;
    bytes::bytes_refusal(record, n, plan, out.len())?;
    let entries = plans::projected(&record.states[..n], plan);
    out.copy_from_slice(&entries[..n]);
    Ok(())
}

// Refuses with 12, 7, 8.
pub fn project(record: Record, plan: &[u8], out: &mut [u8]) -> Result<(), Refusal>
    ensures { Projected «record» plan.now out.old (answer_of result) out.new }
{
    row(broken::is_broken(record), Refusal::Body)?;
    project_unbroken(record, plan, out)
}

// Refuses with 9, 10, 11, 12, 7, 8.
pub fn project_block(block: &[u8], plan: &[u8], out: &mut [u8]) -> Result<(), Refusal>
    ensures { ProjectedBlock block.now plan.now out.old (answer_of result) out.new }
{
    let record = record::read::read_record(block)?;
    project_unbroken(record, plan, out)
}
