// The bench sheet's rows: a table and its proof, and no code.
#![tactic(auto)]
