#![tactic(auto)]

// What follows from the rules of the table text: numbers, lines, records, reading and writing. There is no code here.
