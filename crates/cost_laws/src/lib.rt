// What the rules mean, as theorems about them: in specs/ and proofs/.
#![tactic(auto)]
