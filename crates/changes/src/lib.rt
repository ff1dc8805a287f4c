// Step 6 of "From jobs to a plan", told by what a trial changes: definitions and laws, no code.
#![tactic(auto)]
