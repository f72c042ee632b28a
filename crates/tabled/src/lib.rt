// A table filled by a rule, one number after the other: definitions and laws, no function.
#![tactic(auto)]
