// What is picked and arranged by numbers is what the definitions pick and arrange of statements: laws, no function.
#![tactic(auto)]
