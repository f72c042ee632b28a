// What primitives lead to over modifier links and the sides of mixtures: ways, loops, the materials shown. specs/ and proofs/ alone,
// no code.
#![tactic(auto)]
