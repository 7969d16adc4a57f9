// Readers of the stored lists. Where one does not stand as its form asks, the answer is None.
#![tactic(auto)]

mod fields; // a line, field by field
mod fill; // a field, into lent memory

pub use fields::{Fields, number};
pub use fill::{hex, list, numbers, text};
