// The saved form of a table and its stack: specs/ has the definitions, proofs/ the round trip both ways. The writer and the reader stand above it.
#![tactic(auto)]
