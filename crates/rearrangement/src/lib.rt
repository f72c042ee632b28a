// Blocks of an accepted text in another order: specs/ has the definitions and the theorem, proofs/ its laws. No function.
#![tactic(auto)]
