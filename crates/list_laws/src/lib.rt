// What the acceptance of a list means: theorems alone.
#![tactic(auto)]
