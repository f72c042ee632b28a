// A scene written out, as host programs are told of it: a number for the kind of answer, and its values in a small array.
#![tactic(auto)]

ghost use Rattle.std.specs.Prelude.{◌≡◌};
ghost use Rattle.host_writing.specs.Host.{HostTold, HostWrites, numbered};
ghost use Rattle.scene.specs.Reason.{reason_number};
ghost use Rattle.writer.specs.Answer.{reason_of, values_of};

use scene::Refusal;

// A refusal as its number and its place.
pub fn number_and_place(refusal: Refusal) -> (u32, usize)
    ensures { result ≡ (reason_number refusal.reason, refusal.place) }
{
    (refusal.reason.number(), refusal.place)
}

// The number and the array are those of the calls for C and Rust (`HostWrites`).
// The answer of a writing call: the reason or 0, and the place of a refusal and the length of the text.
pub fn tell_answer(written: Result<usize, (u32, usize)>, answer: &mut [usize; 2]) -> u32
    ensures value { result ≡ reason_of (numbered written) }
    ensures answer_after { answer.new ≡ values_of (numbered written) }
{
    match written {
        Ok(len) => {
            *answer = [0, len];
            0
        }
        Err((number, place)) => {
            *answer = [place, 0];
            number
        }
    }
}

// Writes a scene out.
pub fn tell_written(
    mode: u32,
    text: &[u8],
    records: &[u32],
    reals: &[f64],
    out: &mut [u8],
    answer: &mut [usize; 2],
) -> u32
    ensures { HostWrites mode text.now records.now reals.now out.old result answer.new out.new }
{
    let m = host_reading::mode_of(mode);
    let written = writer::write(m, text, records, reals, out);
    tell_answer(written.map_err(number_and_place), answer)
}
