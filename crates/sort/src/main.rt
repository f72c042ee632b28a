// Writes scene texts with their statements sorted: the files that the arguments name, or standard input where there are none.
#![tactic(auto)]

use rewriting::{Rewrite, Rewriting};
use scene::Refusal;
use scene_texts::Scene;

struct Sort;

impl Rewrite for Sort {
    const USAGE: &'static [u8] = b"usage: sort [--archive] [FILE..]\n";

    fn rewrite(&self, scene: &Scene<'_>, out: &mut [u8]) -> Result<usize, Refusal> {
        let records = scene.records;
        let reals = scene.reals;
        sorter::sort(scene.mode, scene.text, records, reals, out)
    }

    fn line_at(&self, text: &[u8], place: usize) -> Option<usize> {
        Some(line_numbers::line_at(text, place))
    }
}

fn main(rt: HostRuntime) {
    scene_texts::run(&rt, &Rewriting(Sort));
}
