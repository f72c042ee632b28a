// What a text is, by a grammar, and why a text is refused, by the reasons that hold in it. No function.
#![tactic(auto)]
