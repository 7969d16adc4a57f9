// Growing back and projecting, from a record or straight from its block. Every test comes before the first store.
#![tactic(auto)]

pub mod bytes; // rows 7 and 8
pub mod grow; // an answer grown back
pub mod project; // a full plan projected
pub mod plans; // the bytes of a plan, put in and taken out
pub mod play; // the steps, last to first
