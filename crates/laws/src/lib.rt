// Definitions and laws that the kit lacks, on lists, tables and doubles: specs/ and proofs/ alone, no code.
#![tactic(auto)]
