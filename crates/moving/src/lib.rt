// Moving scenes between glass of three reals and glass whose index is spelled out: specs/ has the definitions, proofs/ their laws.
#![tactic(auto)]

// Forth, to four reals; or back, to three.
#[derive(Clone, Copy)]
pub enum Direction {
    Forth,
    Back,
}
