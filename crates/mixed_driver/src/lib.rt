// The driver of the scene reader with mixtures resolved: when all of a text is read, both sides of each mixture are looked up, and
// loops are refused.
#![tactic(auto)]

ghost use Rattle.std.specs.Prelude.{◌≡◌};
ghost use Rattle.driver.specs.Ending.{end_of};
ghost use Rattle.mixed_driver.specs.Paired.{EndsPaired, enough_pairs, short_reason};
ghost use Rattle.scene.specs.Reason.{reason_number};

use driver::Accepted;
use scene::{Mode, Reason, Refusal};
use table::{MOST_RECORDS, WIDTH};

// The reason where a lent table is too short: a text that is too long comes first.
pub fn refused_short(short: Reason, len: usize) -> Reason
    ensures { reason_number result ≡ short_reason (reason_number short) len }
{
    if table::MOST_BYTES < len {
        return Reason::TextTooLong;
    }
    short
}

// The same by the number of a reason, which may be any: the page of promises names it.
pub fn short_reason(reason: u32, len: usize) -> u32
    ensures { result ≡ short_reason reason len }
{
    if table::MOST_BYTES < len {
        return Reason::TextTooLong.number();
    }
    reason
}

// Whether a pair table has two numbers for each record of room.
fn enough_pairs(numbers: usize, pairs: usize) -> bool
    ensures { result ≡ enough_pairs numbers pairs }
{
    MOST_RECORDS.min(numbers / WIDTH) * 2 <= pairs
}

// Reads a scene text into the lent tables, which it clears first, and again after a refusal. An index of under 2,048 entries is
// cleared too, and not used.
pub fn run(
    mode: Mode,
    text: &[u8],
    records: &mut [u32],
    reals: &mut [f64],
    pairs: &mut [u32],
    index: &mut [u32],
) -> Result<Accepted, Refusal>
    ensures { EndsPaired mode text.now records.old reals.old pairs.old index.old (end_of result) records.new reals.new pairs.new index.new }
{
    pairs.fill(0);
    if !enough_pairs(records.len(), pairs.len()) {
        table::clear_all(records, reals, index);
        return Err(Refusal {
            reason: refused_short(Reason::PairsTooShort, text.len()),
            place: 0,
        });
    }
    let accepted = driver::run(mode, text, records, reals, index)?;
    if let Err(refusal) = validation::validate(text, records, pairs, index, accepted.primitives) {
        table::clear_all(records, reals, index);
        pairs.fill(0);
        return Err(refusal);
    }
    Ok(accepted)
}
