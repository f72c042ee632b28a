// The mixtures of a text that is read: their sides are looked up, and a side that is not known or a loop is refused.
#![tactic(auto)]

ghost use Rattle.std.specs.Prelude.{◌≡◌, length};
ghost use Rattle.validation.specs.Validated.{Loops, Validates, validity_of};

use resolver::Resolved;
use scene::{Reason, Refusal};
use table::{MOST_RECORDS, NAME};

// The refusal for a loop, at the name of its lowest primitive.
fn loop_refusal(records: &[u32], pairs: &[u32], count: usize) -> Result<(), Refusal>
    ensures { Loops records.now pairs.now count (validity_of result) }
{
    let mut marks = [0u32; MOST_RECORDS + 1];
    let size = count.min(MOST_RECORDS) + 1;
    let n = loops::first_loop(records, pairs, &mut marks[..size]);
    if n == 0 {
        return Ok(());
    }
    Err(Refusal {
        reason: Reason::Loop,
        place: table::field(records, n, NAME) as usize,
    })
}

// The sides of all mixtures go into the pair table; where there is no mixture, there is no loop to look for. Every mixture is in
// order, or one is refused.
pub fn validate(
    text: &[u8],
    records: &[u32],
    pairs: &mut [u32],
    index: &[u32],
    count: usize,
) -> Result<(), Refusal>
    ensures pairs_len_unchanged { length pairs.new ≡ length pairs.old }
    ensures validates { Validates text.now records.now index.now pairs.old count (validity_of result) pairs.new }
{
    match resolver::resolve(text, records, index, pairs, count) {
        Resolved::Plain => Ok(()),
        Resolved::Known => loop_refusal(records, pairs, count),
        Resolved::Unknown(place) => Err(Refusal {
            reason: Reason::UnknownSide,
            place,
        }),
    }
}
