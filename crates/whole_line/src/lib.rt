// Demand 3, a claim about a whole line, and document 01's proved examples: definitions in specs/, proofs in proofs/. There is no code here.

#![tactic(auto)]
