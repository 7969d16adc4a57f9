// The run's own laws: what is due, units, the queue, the steps, the counts, and that every run ends. In specs/ and proofs/.
#![tactic(auto)]
