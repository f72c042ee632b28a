// What the order of two entries of an accepted text is, by the call: laws, no function.
#![tactic(auto)]
