#![tactic(auto)]

// Laws of lists, tests and answers, and of the two leaves: what every other law stands on. There is no code here.
