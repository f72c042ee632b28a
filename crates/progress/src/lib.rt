// How far a reading has come: what holds of the lent tables between two words, and that each step keeps it. specs/ and proofs/
// alone, no code.
#![tactic(auto)]
