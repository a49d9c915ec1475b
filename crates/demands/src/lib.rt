// The user's three demands, as theorems over the definitions that the public contracts cite: specs/ states them, proofs/ proves them. No code.
#![tactic(auto)]
