// Writes scene texts out, tidy, with their glass moved: the files that the arguments behind the direction name, or standard input where
// there are none.
#![tactic(auto)]

use moving::Direction;
use rewriting::{Rewrite, Rewriting};
use scene::Refusal;
use scene_texts::Scene;
use std::rt::Env;

#[derive(Drop)]
struct Glass {
    direction: Direction,
}

impl Rewrite for Glass {
    const USAGE: &'static [u8] = b"usage: glass [--archive] forth|back [FILE..]\n";

    fn rewrite(&self, scene: &Scene<'_>, out: &mut [u8]) -> Result<usize, Refusal> {
        let records = scene.records;
        let reals = scene.reals;
        mover::move_glass(scene.mode, self.direction, scene.text, records, reals, out)
    }
}

fn direction_at(rt: &impl Env, argument: usize) -> Option<Direction> {
    if input::is_word(rt, argument, b"forth") {
        return Some(Direction::Forth);
    }
    input::is_word(rt, argument, b"back").then_some(Direction::Back)
}

fn main(rt: HostRuntime) {
    let at = input::first(&rt);
    match direction_at(&rt, at) {
        Some(direction) if !input::has_unknown_option(&rt) => {
            scene_texts::run_from(&rt, &Rewriting(Glass { direction }), at + 1);
        }
        _ => {
            output::print(&rt, Glass::USAGE);
        }
    }
}
