// What a call is given: an objective in the caller's own lists, its fixings, its switches and its budget.
#[derive(Clone, Copy)]
pub struct Objective<'a> {
    pub n: u32,
    pub weights: &'a [i64],
    pub firsts: &'a [u32],
    pub seconds: &'a [u32],
    pub term_weights: &'a [i64],
    pub fixings: &'a [u8],
    pub switches: u32,
    pub budget: u32,
}
