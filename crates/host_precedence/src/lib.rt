// Whether the order of two entries mattered, as host programs are told of it: a number for the kind of answer, and its values in a small array.
#![tactic(auto)]

ghost use Rattle.std.specs.Prelude.{◌≡◌};
ghost use Rattle.precedence.specs.Answer.{kind_of, order_of, values_of};

// 0 for free, 1 for held, or the refusal's number; and the entry that a chain goes to first, with the one whose name binds.
pub fn tell_order(
    text: &[u8],
    records: &[u32],
    count: usize,
    first: usize,
    second: usize,
    answer: &mut [usize; 2],
) -> u32
    ensures value { result ≡ kind_of (order_of text.now records.now count first second) }
    ensures answer_after { answer.new ≡ values_of (order_of text.now records.now count first second) }
{
    match precedence::mattered(text, records, count, first, second) {
        Ok(None) => {
            *answer = [0, 0];
            0
        }
        Ok(Some(held)) => {
            *answer = [held.by, held.named];
            1
        }
        Err(reason) => {
            *answer = [0, 0];
            reason.number()
        }
    }
}
