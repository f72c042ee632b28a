// Lent tables compared with those of a fresh reading.
#![tactic(auto)]

ghost use Rattle.std.specs.Prelude.{◌≡◌, length};
ghost use Rattle.bits.specs.Bits.{same_reals};
ghost use Rattle.laws.specs.Bytes.{same};
ghost use Rattle.reader.specs.Answer.{read_into};
ghost use Rattle.scene.specs.HouseRules.{zero_real};
ghost use Rattle.scene.specs.Record.{filled};
ghost use Rattle.fresh.specs.Fresh.{answer_of, fresh_of};

use scene::{Mode, Reason, Refusal};

// Whether a table has the numbers of a fresh one, and 0 behind them. Reals are compared by their bits, for which `==` is no test, so
// the two functions are not one.
fn same_numbers(table: &[u32], fresh: &[u32]) -> bool
    ensures { result ≡ same table.now (filled 0 (length table.now) fresh.now) }
{
    let Some((front, rest)) = table.split_at_checked(fresh.len()) else {
        return false;
    };
    front == fresh && rest.iter().all(|n| *n == 0)
}

fn same_reals(table: &[f64], fresh: &[f64]) -> bool
    ensures { result ≡ same_reals table.now (filled zero_real (length table.now) fresh.now) }
{
    let Some((front, rest)) = table.split_at_checked(fresh.len()) else {
        return false;
    };
    let same_front = bits::same_bits(front, fresh);
    same_front && rest.iter().all(|x| bits::bits_of(*x) == 0)
}

// Reads the text afresh, in a mode, at the sizes of the lent tables, and compares them: how many primitives they have, or why they are
// refused.
pub fn compare(mode: Mode, text: &[u8], records: &[u32], reals: &[f64]) -> Result<usize, Refusal>
    ensures { answer_of result ≡ fresh_of text.now records.now reals.now (read_into mode text.now records.now reals.now) }
{
    let mut fresh_records = [0u32; table::MOST_NUMBERS];
    let mut fresh_reals = [0.0f64; table::MOST_REALS];
    let n = records.len().min(table::MOST_NUMBERS);
    let k = reals.len().min(table::MOST_REALS);
    let counts = reader::read_with_own_tables(
        mode,
        text,
        &mut fresh_records[..n],
        &mut fresh_reals[..k],
    )?;
    if same_numbers(records, &fresh_records[..n]) & same_reals(reals, &fresh_reals[..k]) {
        return Ok(counts.primitives);
    }
    Err(Refusal {
        reason: Reason::TablesDiffer,
        place: 0,
    })
}
