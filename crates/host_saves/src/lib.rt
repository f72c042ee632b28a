// Two saves read, as host programs are told of it: a number for the kind of answer, and its values in a small array.
#![tactic(auto)]

ghost use Rattle.std.specs.Prelude.{◌≡◌};
ghost use Rattle.pair.specs.Both.{side_number};
ghost use Rattle.host_saves.specs.Host.{HostReadsBoth};

use pair::{BothCounts, Side};

// The number is that of the calls for C and Rust.
fn side_number(side: Side) -> usize
    ensures { result ≡ side_number side }
{
    side as usize
}

// Reads two scenes: the reason or 0, and side, place, and primitives and reals of each. Numbers, as the calls for C and Rust hand them
// on (`HostReadsBoth`).
pub fn tell_both(
    mode: u32,
    left: &[u8],
    left_records: &mut [u32],
    left_reals: &mut [f64],
    right: &[u8],
    right_records: &mut [u32],
    right_reals: &mut [f64],
    answer: &mut [usize; 6],
) -> u32
    ensures { HostReadsBoth mode left.now left_records.old left_reals.old right.now right_records.old right_reals.old result answer.new left_records.new left_reals.new right_records.new right_reals.new }
{
    match pair::read_both(
        host_reading::mode_of(mode),
        left,
        left_records,
        left_reals,
        right,
        right_records,
        right_reals,
    ) {
        Ok(BothCounts { left, right }) => {
            *answer = [
                0,
                0,
                left.primitives,
                left.reals,
                right.primitives,
                right.reals,
            ];
            0
        }
        Err(refused) => {
            *answer = [side_number(refused.side), refused.refusal.place, 0, 0, 0, 0];
            refused.refusal.reason.number()
        }
    }
}
