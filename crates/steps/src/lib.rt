#![tactic(auto)]

// What follows from steps 1 to 9, as laws that the planning crates cite. There is no code here.
