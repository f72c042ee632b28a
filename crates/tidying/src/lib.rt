// What the tidy text of a scene is, and that it reads back: specs/ has the definitions, proofs/ their laws. No function.
#![tactic(auto)]
