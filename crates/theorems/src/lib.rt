// Demand 3 and the theorems for testers, over the definitions: no code stands on them. There is no code here.
#![tactic(auto)]
