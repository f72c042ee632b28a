// What the ties of an accepted text's records are: laws, no function.
#![tactic(auto)]
