// The running reader on a text and on its blocks in another order: specs/ has the statements, proofs/ their laws. No function.
#![tactic(auto)]
