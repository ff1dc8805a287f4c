// The demands, stated over the offered calls: see proofs/Demands.antt. There is no code here.
#![tactic(auto)]
