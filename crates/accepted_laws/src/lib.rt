// What an accepted objective gives: laws alone, in specs/.
#![tactic(auto)]
