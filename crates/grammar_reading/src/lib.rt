// The grammar of texts and the reasons for refusing them, of the running reader. No function.
#![tactic(auto)]
