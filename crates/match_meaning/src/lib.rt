// What the matches of two accepted texts say of their statements: laws, no function.
#![tactic(auto)]
