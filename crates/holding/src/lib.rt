// Whether the order of two entries matters: specs/ has the definitions and the theorems, proofs/ their laws. No function.
#![tactic(auto)]
