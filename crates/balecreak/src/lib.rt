// The public calls for vendors, on numbers and slices alone: a slice goes as a pointer and a length.
#![tactic(auto)]

ghost use Rattle.std.specs.Prelude.{◌≡◌};
ghost use Rattle.rules.specs.Objective.{objective};
ghost use Rattle.rules.specs.Given.{of_lists};
ghost use Rattle.rules.specs.Numbers.{answer_of};
ghost use Rattle.rules.specs.Refuse.{read_refusal};
ghost use Rattle.back.specs.Calls.{GrownBackBlock, ProjectedBlock};
ghost use Rattle.balecreak.specs.Calls.{into_refusal, count_list, ReducedInto, Copied};

use refusal::row;
use rules::{Objective, Reduction, Refusal};

// The one place where what a call gave becomes its number.
fn number<T: Copy>(given: Result<T, Refusal>) -> u32
    ensures { result ≡ answer_of given }
{
    match given {
        Ok(_) => 0,
        Err(refusal) => u32::from(u8::from(refusal)),
    }
}

// What a vendor's list of counts is to hold.
fn listing(r: Reduction) -> [u32; 14]
    ensures { result ≡ count_list r }
{
    let c = r.counts;
    [
        c.eliminated,
        c.degree_three_eliminated,
        c.degree_three_skipped,
        c.contracted,
        c.weak_contractions,
        c.additional_fixed,
        c.remaining,
        c.passes,
        c.blocks_eliminated,
        c.block_variables,
        r.takes,
        r.blocks,
        r.units,
        u32::from(r.complete),
    ]
}

// reduce's rows, where a wrong length of the counts is one of row 2's; then the block's.
fn into_refusal(o: Objective, l: usize, e: usize, b: usize, c: usize) -> Result<(), Refusal>
    ensures { answer_of result ≡ into_refusal (of_lists o.entry) l e b c }
{
    refusal::refusal(o, l, e, c != 14)?;
    row(b != 512, Refusal::BlockLength)
}

fn reduce_into(
    o: Objective,
    linear: &mut [i64],
    edges: &mut [i64],
    block: &mut [u8],
    counts: &mut [u32],
) -> Result<(), Refusal>
    ensures { ReducedInto (of_lists o.entry) linear.old edges.old block.old counts.old (answer_of result) linear.new edges.new block.new counts.new }
{
    into_refusal(o, linear.len(), edges.len(), block.len(), counts.len())?;
    let r = reduce::accepted(o, linear, edges);
    block.copy_from_slice(&record::write::block_of(r.record));
    counts.copy_from_slice(&listing(r));
    Ok(())
}

// Refuses with 1 to 6 and 9.
pub fn balecreak_reduce(
    n: u32,
    weights: &[i64],
    firsts: &[u32],
    seconds: &[u32],
    term_weights: &[i64],
    fixings: &[u8],
    switches: u32,
    budget: u32,
    linear: &mut [i64],
    edges: &mut [i64],
    block: &mut [u8],
    counts: &mut [u32],
) -> u32
    ensures { ReducedInto (objective n weights.now firsts.now seconds.now term_weights.now fixings.now switches budget) linear.old edges.old block.old counts.old result linear.new edges.new block.new counts.new }
{
    let o = Objective {
        n,
        weights,
        firsts,
        seconds,
        term_weights,
        fixings,
        switches,
        budget,
    };
    number(reduce_into(o, linear, edges, block, counts))
}

// Refuses with 9 to 12.
pub fn balecreak_check(block: &[u8]) -> u32
    ensures { result ≡ read_refusal block.now }
{
    number(record::read::read_record(block))
}

fn copy(block: &[u8], out: &mut [u8]) -> Result<(), Refusal>
    ensures { Copied block.now out.old (answer_of result) out.new }
{
    row(out.len() != 512, Refusal::BlockLength)?;
    let record = record::read::read_record(block)?;
    out.copy_from_slice(&record::write::block_of(record));
    Ok(())
}

// The record that a block holds, written anew. Refuses with 9 to 12; 9 for either length.
pub fn balecreak_copy(block: &[u8], out: &mut [u8]) -> u32
    ensures { Copied block.now out.old result out.new }
{
    number(copy(block, out))
}

// Refuses with 9 to 12, 7, 8.
pub fn balecreak_grow_back(block: &[u8], answer: &[u8], plan: &mut [u8]) -> u32
    ensures { GrownBackBlock block.now answer.now plan.old result plan.new }
{
    number(back::grow::grow_back_block(block, answer, plan))
}

// Refuses with 9 to 12, 7, 8.
pub fn balecreak_project(block: &[u8], plan: &[u8], out: &mut [u8]) -> u32
    ensures { ProjectedBlock block.now plan.now out.old result out.new }
{
    number(back::project::project_block(block, plan, out))
}
