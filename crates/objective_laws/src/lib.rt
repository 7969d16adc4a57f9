// The cost of an objective as the caller gave it, against the cost of the graph that is built from it and of the graph after fixing: in specs/ and proofs/.
#![tactic(auto)]
