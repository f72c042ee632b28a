// Shows the materials that each surface of scene texts may show: of the files that the arguments name, or of standard input
// where there are none.
#![tactic(auto)]

use output::{ErrorStream, Refused};
use scene_texts::{Program, Scene};
use std::io;
use std::rt::Env;
use table::MOST_RECORDS;

// Enough for any line: 1,024 numbers of 4 digits at most with commas, one of 20 digits, a name of 64, and 17 more.
const LINE: usize = 6144;

// The line of a surface. The list has room for every primitive that a reading stores.
#[inline(always)]
fn print_shown(rt: &impl Print, scene: &Scene<'_>, number: usize) -> io::Result<()> {
    let records = scene.records;
    let pairs = scene.pairs;
    let mut list = [0u32; MOST_RECORDS];
    match shown::list_shown(records, pairs, scene.primitives, number, &mut list) {
        Ok(many) => {
            let mut line = [0u8; LINE];
            let listed = &list[..many.min(MOST_RECORDS)];
            let n = shown_listing::shown_line(&mut line, scene.text, records, number, listed);
            rt.write_all(&line[..n])
        }
        Err(reason) => output::print_refusal(rt, Refused::without_line(reason.number(), 0)),
    }
}

struct Shows;

impl Program for Shows {
    const USAGE: &'static [u8] = b"usage: shows [--archive] [FILE..]\n";

    #[inline(always)]
    fn answer(&self, rt: &(impl Env + Print + ErrorStream), scene: &Scene<'_>) -> io::Result<()> {
        (1..=scene.primitives)
            .filter(|&n| scene.is_surface(n))
            .try_for_each(|n| print_shown(rt, scene, n))
    }
}

fn main(rt: HostRuntime) {
    scene_texts::run(&rt, &Shows);
}
