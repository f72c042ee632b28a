// The lines of a comparison, as host programs are handed them: a number for the kind of answer, and its values in a small array.
#![tactic(auto)]

ghost use Rattle.std.specs.Prelude.{◌≡◌};
ghost use Rattle.comparison.specs.Answer.{values_of};
ghost use Rattle.comparison.specs.Next.{answer_of};
ghost use Rattle.ordered.specs.Lent.{lent};
ghost use Rattle.host_lines.specs.Host.{HostLine, held_in};
ghost use Rattle.host_lines.specs.Ordered.{HostOrdered};

use comparison::{Line, Place};
use content::Scene;
use ordered::{Cursors, OrderedScene};

// The side of the left scene, as the calls for C and Rust have it; any other is the right one.
const LEFT: usize = 0;

// The key held.
#[tactic(auto, using(crate::proofs::HostLaws::held_left, crate::proofs::HostLaws::held_right))]
fn held_in(line: &[usize; 4]) -> Place
    ensures { result ≡ held_in line.now }
{
    if line[0] == LEFT {
        return Place::Left(line[1]);
    }
    Place::Right(line[1])
}

// A line's values.
pub fn values_of(line: Line) -> [usize; 4]
    ensures { result ≡ values_of (answer_of (Some line)) }
{
    let state = line.state.number();
    match line.place {
        Place::Left(n) => [LEFT, n, line.nth, state],
        Place::Right(n) => [1, n, line.nth, state],
    }
}

// The next line after the key held: 1 for a line and 0 for the end, and side, number, nth and state in place of the key.
pub fn tell_line<'a>(left: Scene<'a>, right: Scene<'a>, line: &mut [usize; 4]) -> u32
    ensures { HostLine left.entry.text.now left.entry.records.now left.entry.reals.now right.entry.text.now right.entry.records.now right.entry.reals.now line.old result line.new }
{
    let held = held_in(line);
    match comparison::next_line(left, right, held) {
        None => {
            *line = [0; 4];
            0
        }
        Some(next) => {
            *line = values_of(next);
            1
        }
    }
}

// The next line from the cursors held: 1 for a line and 0 for the end, and in place of what the array holds the cursors to go on
// from, side, number, nth and state.
pub fn tell_ordered(left: OrderedScene<'_>, right: OrderedScene<'_>, line: &mut [usize; 6]) -> u32
    ensures { HostOrdered (lent left.entry) (lent right.entry) line.old result line.new }
{
    let held = Cursors {
        left: line[0],
        right: line[1],
    };
    match ordered::next_line(left, right, held) {
        None => {
            *line = [0; 6];
            0
        }
        Some(next) => {
            let [side, number, nth, state] = values_of(next.line);
            let at = next.cursors;
            *line = [at.left, at.right, side, number, nth, state];
            1
        }
    }
}
