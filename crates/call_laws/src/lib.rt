// Demand 3 through the calls themselves, as a theorem over their contracts: all in specs/.
#![tactic(auto)]
