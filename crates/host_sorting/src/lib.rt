// A sorted scene, as host programs are told of it: a number for the kind of answer, and its values in a small array.
#![tactic(auto)]

ghost use Rattle.host_sorting.specs.Host.{HostSorts};

use host_writing::{number_and_place, tell_answer};

// Writes a scene sorted: the reason or 0, and the place of a refusal and the length of the text.
pub fn tell_sorted(
    mode: u32,
    text: &[u8],
    records: &[u32],
    reals: &[f64],
    out: &mut [u8],
    answer: &mut [usize; 2],
) -> u32
    ensures { HostSorts mode text.now records.now reals.now out.old result answer.new out.new }
{
    let m = host_reading::mode_of(mode);
    let sorted = sorter::sort(m, text, records, reals, out);
    tell_answer(sorted.map_err(number_and_place), answer)
}
