// A scene sorted by type: specs/ has the definitions and the theorems, proofs/ their laws. No function.
#![tactic(auto)]
