// What follows of the contracts of openers and sealers: accepted exactly when each condition holds, numbers that never come, sealed and opened again, also after
// session data was read, both builds the same. There is no code here.

#![tactic(auto)]
