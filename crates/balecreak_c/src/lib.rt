// The vendors' calls as C finds them: each call of `balecreak` under its own name, with the same promise. A slice goes
// as a pointer and a length.
#![tactic(auto)]

ghost use Rattle.std.specs.Prelude.{◌≡◌};
ghost use Rattle.rules.specs.Objective.{objective};
ghost use Rattle.rules.specs.Refuse.{read_refusal};
ghost use Rattle.back.specs.Calls.{GrownBackBlock, ProjectedBlock};
ghost use Rattle.balecreak.specs.Calls.{ReducedInto, Copied};

// Refuses with 1 to 6 and 9.
#[unsafe(no_mangle)]
pub extern "C" fn balecreak_reduce(
    n: u32,
    weights: &[i64],
    firsts: &[u32],
    seconds: &[u32],
    term_weights: &[i64],
    fixings: &[u8],
    switches: u32,
    budget: u32,
    linear: &mut [i64],
    edges: &mut [i64],
    block: &mut [u8],
    counts: &mut [u32],
) -> u32
    ensures { ReducedInto (objective n weights.now firsts.now seconds.now term_weights.now fixings.now switches budget) linear.old edges.old block.old counts.old result linear.new edges.new block.new counts.new }
{
    balecreak::balecreak_reduce(
        n,
        weights,
        firsts,
        seconds,
        term_weights,
        fixings,
        switches,
        budget,
        linear,
        edges,
        block,
        counts,
    )
}

// Refuses with 9 to 12.
#[unsafe(no_mangle)]
pub extern "C" fn balecreak_check(block: &[u8]) -> u32
    ensures { result ≡ read_refusal block.now }
{
    balecreak::balecreak_check(block)
}

// The record that a block holds, written anew. Refuses with 9 to 12; 9 for either length.
#[unsafe(no_mangle)]
pub extern "C" fn balecreak_copy(block: &[u8], out: &mut [u8]) -> u32
    ensures { Copied block.now out.old result out.new }
{
    balecreak::balecreak_copy(block, out)
}

// Refuses with 9 to 12, 7, 8.
#[unsafe(no_mangle)]
pub extern "C" fn balecreak_grow_back(block: &[u8], answer: &[u8], plan: &mut [u8]) -> u32
    ensures { GrownBackBlock block.now answer.now plan.old result plan.new }
{
    balecreak::balecreak_grow_back(block, answer, plan)
}

// Refuses with 9 to 12, 7, 8.
#[unsafe(no_mangle)]
pub extern "C" fn balecreak_project(block: &[u8], plan: &[u8], out: &mut [u8]) -> u32
    ensures { ProjectedBlock block.now plan.now out.old result out.new }
{
    balecreak::balecreak_project(block, plan, out)
}
