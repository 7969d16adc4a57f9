// The record of a reduction is never broken, and grows answers back as the run's own steps do: in specs/ and proofs/.
#![tactic(auto)]
