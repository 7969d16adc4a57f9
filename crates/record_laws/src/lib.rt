// What a record block keeps: laws about the rules' definitions, all in specs/.
#![tactic(auto)]
