// Two hands' edits of a base scene joined: specs/ has the definitions, proofs/ their laws. No function.
#![tactic(auto)]

use scene::Refusal;

// Whose definition of a name is taken, or that both hands changed it differently.
// A clash is a third choice and no error: the definition `chosen` has it so.
#[derive(Clone, Copy)]
pub enum Choice {
    Left,
    Right,
    Clash,
}

// Which text a refusal names; none where it is of no text.
#[derive(Clone, Copy)]
pub enum Scene {
    None,
    Base,
    Left,
    Right,
    Joined,
}

// A refusal with the text that it is of.
#[derive(Clone, Copy)]
pub struct SceneRefusal {
    pub scene: Scene,
    pub refusal: Refusal,
}
