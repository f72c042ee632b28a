// Answers about a finished scene as host programs are handed them: a number for the kind of answer, and its values in a small array.
#![tactic(auto)]

ghost use Rattle.std.specs.Prelude.{◌≡◌};
ghost use Rattle.finish.specs.Question.{name_refusal};
ghost use Rattle.host_scenes.specs.Host.{finish_reason, finish_values, name_part, word_values};

use table::{NAME, NAME_LENGTH};

// A primitive's name: the refusal's number or 0, and the name's place and length.
pub fn tell_name(
    text: &[u8],
    records: &[u32],
    count: usize,
    number: usize,
    answer: &mut [usize; 2],
) -> u32
    ensures value { result ≡ name_refusal text.now records.now count number }
    ensures answer_after { answer.new ≡ name_part text.now records.now count number }
{
    match finish::name_refusal(text, records, count, number) {
        Ok(()) => {
            let place = table::field(records, number, NAME);
            let len = table::field(records, number, NAME_LENGTH);
            *answer = [place as usize, len as usize];
            0
        }
        Err(reason) => {
            *answer = [0, 0];
            reason.number()
        }
    }
}

// A primitive's finish: the refusal's number or 0, and the material and the links followed.
pub fn tell_finish(
    records: &[u32],
    count: usize,
    number: usize,
    allowance: usize,
    answer: &mut [usize; 2],
) -> u32
    ensures value { result ≡ finish_reason records.now count number allowance }
    ensures answer_after { answer.new ≡ finish_values records.now count number allowance }
{
    match finish::finish_of(records, count, number, allowance) {
        Ok(reached) => {
            *answer = [reached.material, reached.links];
            0
        }
        Err(stopped) => {
            *answer = [0, stopped.links];
            stopped.reason.number()
        }
    }
}

// The word at or after a place: its place and length.
pub fn tell_word(text: &[u8], at: usize, answer: &mut [usize; 2])
    ensures { answer.new ≡ word_values text.now at }
{
    let word = word_reader::next_from(text, at);
    *answer = [word.place, word.len];
}
