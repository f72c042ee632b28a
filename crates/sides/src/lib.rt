// The sides of mixtures in a scene, by the whole file, and the refusals of a reading that resolves them. specs/ and proofs/ alone, no
// code.
#![tactic(auto)]
