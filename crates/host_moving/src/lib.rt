// A scene with its glass moved, as host programs are told of it: a number for the kind of answer, and its values in a small array.
#![tactic(auto)]

ghost use Rattle.std.specs.Prelude.{◌≡◌};
ghost use Rattle.host_moving.specs.Host.{HostMoves, direction_of};

use host_writing::{number_and_place, tell_answer};
use moving::Direction;

// The direction of a number: 1 is back, and any other number forth.
#[tactic(auto, unfolding(crate::specs::Host::direction_of))]
fn direction_of(number: u32) -> Direction
    ensures { result ≡ direction_of number }
{
    if number == 1 {
        return Direction::Back;
    }
    Direction::Forth
}

// Writes a scene out with its glass moved: the reason or 0, and the place of a refusal and the length of the text.
pub fn tell_moved(
    mode: u32,
    direction: u32,
    text: &[u8],
    records: &[u32],
    reals: &[f64],
    out: &mut [u8],
    answer: &mut [usize; 2],
) -> u32
    ensures { HostMoves mode direction text.now records.now reals.now out.old result answer.new out.new }
{
    let m = host_reading::mode_of(mode);
    let d = direction_of(direction);
    let moved = mover::move_glass(m, d, text, records, reals, out);
    tell_answer(moved.map_err(number_and_place), answer)
}
