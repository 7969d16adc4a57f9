// What the search for a small block means, in paths, as theorems about the rules: all in specs/.
#![tactic(auto)]
