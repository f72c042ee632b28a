// Writes scene texts out, tidy: the files that the arguments name, or standard input where there are none.
#![tactic(auto)]

use rewriting::{Rewrite, Rewriting};
use scene::Refusal;
use scene_texts::Scene;

struct Tidy;

impl Rewrite for Tidy {
    const USAGE: &'static [u8] = b"usage: tidy [--archive] [FILE..]\n";

    fn rewrite(&self, scene: &Scene<'_>, out: &mut [u8]) -> Result<usize, Refusal> {
        let records = scene.records;
        let reals = scene.reals;
        writer::write(scene.mode, scene.text, records, reals, out)
    }
}

fn main(rt: HostRuntime) {
    scene_texts::run(&rt, &Rewriting(Tidy));
}
