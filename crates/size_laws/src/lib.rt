// The size rule: what a total of at most 2^40 gives for every graph of a run and for every sum on the way, as theorems about the rules. In specs/ and proofs/.
#![tactic(auto)]
