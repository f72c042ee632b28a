// Worked examples of the definitions. No function.
#![tactic(auto)]
