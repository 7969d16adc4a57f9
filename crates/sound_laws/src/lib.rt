// Every run keeps the cost, at every budget and switch set: in specs/ and proofs/.
#![tactic(auto)]
