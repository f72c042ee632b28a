// The list call on the tables of an accepted text, and demand 3 of it: specs/ has the statements, proofs/ their laws. No function.
#![tactic(auto)]
