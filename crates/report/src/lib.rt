// What the comparison of two saves comes to, on standard output: a line for each key that only one save has, or that was
// changed; or one line for a save that is refused or cannot be read. Each function answers what its writes did.
#![tactic(auto)]

use comparison::{Line, Place};
use content::Scene;
use ordered::{Cursors, OrderedScene};
use pair::Side;
use std::io;
use table::WIDTH;

// Enough for any line. The longest is a key's: a name of 64 bytes, a number of 20 digits at most, and 25 more.
const LINE: usize = 128;

pub fn print_refusal(rt: &impl Print, side: Side, reason: u32, place: usize) -> io::Result<()> {
    let mut line = [0u8; LINE];
    let n = save_lines::refusal_line(&mut line, side, reason, place);
    rt.write_all(lexer::part(&line, 0, n))
}

pub fn print_unreadable(rt: &impl Print, side: Side) -> io::Result<()> {
    let mut line = [0u8; LINE];
    let n = save_lines::unreadable_line(&mut line, side);
    rt.write_all(lexer::part(&line, 0, n))
}

// The line of a key, which a primitive of this scene has.
fn print_line(rt: &impl Print, scene: Scene<'_>, number: usize, line: Line) -> io::Result<()> {
    let count = scene.records.len() / WIDTH;
    let name = finish::name(scene.text, scene.records, count, number);
    let mut bytes = [0u8; LINE];
    let n = save_lines::key_line(&mut bytes, name, line.nth, line.state);
    rt.write_all(lexer::part(&bytes, 0, n))
}

// Prints the lines one by one, along an order of each scene's names.
pub fn print_lines(
    rt: &impl Print,
    left: OrderedScene<'_>,
    right: OrderedScene<'_>,
) -> io::Result<()> {
    let mut from = Cursors { left: 0, right: 0 };
    while let Some(next) = ordered::next_line(left, right, from) {
        match next.line.place {
            Place::Left(n) => print_line(rt, left.scene, n, next.line)?,
            Place::Right(n) => print_line(rt, right.scene, n, next.line)?,
        }
        from = next.cursors;
    }
    Ok(())
}
