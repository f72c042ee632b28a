// The materials that a primitive may show, as host programs are handed them: a number for the kind of answer, how many there are, and
// the list.
#![tactic(auto)]

ghost use Rattle.std.specs.Prelude.{[], ◌∷◌, ◌≡◌, length};
ghost use Rattle.host_shown.specs.Host.{shown_many, shown_reason};
ghost use Rattle.shown.specs.List.{shown_list};

// Lists the materials that a primitive may show: the refusal's number or 0, and how many there are.
pub fn tell_shown(
    records: &[u32],
    pairs: &[u32],
    count: usize,
    number: usize,
    list: &mut [u32],
    answer: &mut [usize; 1],
) -> u32
    ensures value { result ≡ shown_reason records.now pairs.now count number (length list.old) }
    ensures answer_after { answer.new ≡ shown_many records.now pairs.now count number (length list.old) ∷ [] }
    ensures list_after { list.new ≡ shown_list records.now pairs.now count number (length list.old) }
{
    match shown::list_shown(records, pairs, count, number, list) {
        Ok(many) => {
            *answer = [many];
            0
        }
        Err(reason) => {
            *answer = [0];
            reason.number()
        }
    }
}
