// COUNTS: eleven numbers.
use lists::numbers;
use rules::{Reduction, Refusal};

// What a reduction counted; a refusal counted nothing.
fn counted(reduced: &Result<Reduction, Refusal>) -> [u32; 11] {
    let Ok(reduction) = reduced else {
        return [0; 11];
    };
    let c = reduction.counts;
    [
        c.eliminated,
        c.degree_three_eliminated,
        c.degree_three_skipped,
        c.contracted,
        c.weak_contractions,
        c.additional_fixed,
        c.remaining,
        c.passes,
        c.blocks_eliminated,
        c.block_variables,
        reduction.takes,
    ]
}

pub fn are_told(line: &[u8], reduced: &Result<Reduction, Refusal>) -> Option<bool> {
    let mut told = [0u32; 11];
    Some(numbers(line, &mut told)? == counted(reduced).as_slice())
}
