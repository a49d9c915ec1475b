// Document 01's cases over the definitions: specs/ holds the table, proofs/ its one claim. No code.
#![tactic(auto)]
