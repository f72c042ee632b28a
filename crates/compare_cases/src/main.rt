// Compares pairs of saves, one pair after the other: the cases that are stored for the program `compare`, each two arguments
// under a line with their names.
#![tactic(auto)]

use std::io;
use std::rt::{Env, Files};

fn print_names(rt: &(impl Env + Print), left: usize, right: usize) -> io::Result<()> {
    rt.write_all(b"scenes=")?;
    input::write_arg(rt, rt, left)?;
    rt.write_all(b" ")?;
    input::write_arg(rt, rt, right)?;
    rt.write_all(b"\n")
}

fn compare_all(rt: &(impl Env + Files + Print)) -> io::Result<()> {
    let mode = input::mode(rt);
    let last = input::end(rt) - 1;
    for left in (input::first(rt)..last).step_by(2) {
        print_names(rt, left, left + 1)?;
        saves::compare_arguments(rt, mode, left, left + 1)?;
    }
    Ok(())
}

fn main(rt: HostRuntime) {
    output::noticed(&rt, compare_all(&rt));
}
