// Lists the entries of scene texts: of the files that the arguments name, or of standard input where there are none.
#![tactic(auto)]

use output::{ErrorStream, Refused};
use scene::Mode;
use scene_texts::{Program, Scene};
use std::io;
use std::rt::Env;

// Enough for any line, and for both that a listing begins with. The longest is a row: four numbers of 20 digits at most, a type of 10 bytes, a name of 64, and 34
// more.
const LINE: usize = 256;

fn print_head(
    rt: &impl Print,
    mode: Mode,
    reason: u32,
    place: usize,
    primitives: usize,
    reals: usize,
) -> io::Result<()> {
    let mut lines = [0u8; LINE];
    let n = listing::head_lines(&mut lines, mode, reason, place, primitives, reals);
    rt.write_all(&lines[..n])
}

fn print_row(rt: &impl Print, scene: &Scene<'_>, number: usize) -> io::Result<()> {
    let mut line = [0u8; LINE];
    let records = scene.records;
    let n = listing::row_line(&mut line, scene.text, records, number);
    rt.write_all(&line[..n])
}

#[derive(Drop)]
struct List {
    mode: Mode,
}

impl Program for List {
    const USAGE: &'static [u8] = b"usage: list [--archive] [FILE..]\n";

    // The counts and the rows.
    fn answer(&self, rt: &(impl Env + Print + ErrorStream), scene: &Scene<'_>) -> io::Result<()> {
        print_head(rt, self.mode, 0, 0, scene.primitives, scene.doubles)?;
        (1..=scene.primitives).try_for_each(|n| print_row(rt, scene, n))
    }

    // A refusal has no line here.
    fn refuse(
        &self,
        rt: &(impl Env + Print + ErrorStream),
        _number: usize,
        refused: Refused,
    ) -> io::Result<()> {
        print_head(rt, self.mode, refused.reason, refused.place, 0, 0)
    }
}

fn main(rt: HostRuntime) {
    let mode = input::mode(&rt);
    scene_texts::run(&rt, &List { mode });
}
