// Shows the finish of each surface of scene texts: of the files that the arguments name, or of standard input where there
// are none.
#![tactic(auto)]

use output::{ErrorStream, Refused};
use scene_texts::{Program, Scene};
use std::io;
use std::rt::Env;

// Enough for any line: five numbers of 20 digits at most and two of 10, a type of 10 bytes, two names of 64, and 72 more.
const LINE: usize = 384;

// The line of a surface. No walk needs more links than there are primitives.
fn print_finish(rt: &impl Print, scene: &Scene<'_>, number: usize) -> io::Result<()> {
    let count = scene.primitives;
    let records = scene.records;
    match finish::finish_of(records, count, number, count) {
        Ok(reached) => {
            let mut line = [0u8; LINE];
            let lent = table::first_records(records, count);
            let n = finish_listing::finish_line(
                &mut line,
                scene.text,
                lent,
                number,
                reached.material,
                reached.links,
            );
            rt.write_all(&line[..n])
        }
        Err(stopped) => {
            let refused = Refused::without_line(stopped.reason.number(), 0);
            output::print_refusal(rt, refused)
        }
    }
}

struct Finishes;

impl Program for Finishes {
    const USAGE: &'static [u8] = b"usage: finishes [--archive] [FILE..]\n";

    fn answer(&self, rt: &(impl Env + Print + ErrorStream), scene: &Scene<'_>) -> io::Result<()> {
        (1..=scene.primitives)
            .filter(|&n| scene.is_surface(n))
            .try_for_each(|n| print_finish(rt, scene, n))
    }
}

fn main(rt: HostRuntime) {
    scene_texts::run(&rt, &Finishes);
}
