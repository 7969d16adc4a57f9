// What a reduction is good for: grown back, an answer costs what the reduced problem says, and no plan is lost. In specs/ and proofs/.
#![tactic(auto)]
