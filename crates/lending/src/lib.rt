#![tactic(auto)]

// No code: laws of slices that are lent again, and the steps that walks by hand over them share.
