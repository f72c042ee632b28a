// The scene reader: with a lent pair table, with a lent index too, and with both of its own.
#![tactic(auto)]

ghost use Rattle.std.specs.Prelude.{◌≡◌};
ghost use Rattle.reader.specs.Answer.{Reads, answer_of};
ghost use Rattle.reader.specs.Indexed.{ReadsIndexed, answered_short, indexed_of};
ghost use Rattle.reader.specs.Paired.{ReadsPaired};

use driver::Accepted;
use scene::{Mode, Reason, Refusal};

// How many primitives an accepted text has, and how many reals.
#[derive(Clone, Copy, PartialEq, Eq, Debug)]
pub struct Counts {
    pub primitives: usize,
    pub reals: usize,
}

impl From<Accepted> for Counts {
    ghost from_gives = { λ a c. c ≡ record { primitives = a.primitives; reals = a.reals } };

    fn from(accepted: Accepted) -> Counts {
        Counts {
            primitives: accepted.primitives,
            reals: accepted.reals,
        }
    }
}

// An answer, and how many entries of the index were looked at for it.
#[derive(Clone, Copy, PartialEq, Eq, Debug)]
pub struct Indexed {
    pub answer: Result<Counts, Refusal>,
    pub looked: u32,
}

// Reads a scene text, in a mode, into the lent tables, and searches names from the latest record back.
pub fn read(
    mode: Mode,
    text: &[u8],
    records: &mut [u32],
    reals: &mut [f64],
    pairs: &mut [u32],
) -> Result<Counts, Refusal>
    ensures { ReadsPaired mode text.now records.old reals.old pairs.old (answer_of result) records.new reals.new pairs.new }
{
    let mut none: [u32; 0] = [];
    let accepted = mixed_driver::run(mode, text, records, reals, pairs, &mut none)?;
    Ok(Counts::from(accepted))
}

// The refusal where an index is too short.
fn without_index(len: usize) -> Refusal
    ensures { answer_of (Err result) ≡ answered_short len }
{
    Refusal {
        reason: mixed_driver::refused_short(Reason::IndexTooShort, len),
        place: 0,
    }
}

// Reads a scene text, in a mode, into the lent tables, and searches names by the lent index.
pub fn read_indexed(
    mode: Mode,
    text: &[u8],
    records: &mut [u32],
    reals: &mut [f64],
    pairs: &mut [u32],
    index: &mut [u32],
) -> Indexed
    ensures { ReadsIndexed mode text.now records.old reals.old pairs.old index.old (indexed_of result) records.new reals.new pairs.new index.new }
{
    if index.len() < index::ENTRIES {
        table::clear_all(records, reals, index);
        pairs.fill(0);
        return Indexed {
            answer: Err(without_index(text.len())),
            looked: 0,
        };
    }
    match mixed_driver::run(mode, text, records, reals, pairs, index) {
        Ok(accepted) => Indexed {
            answer: Ok(Counts::from(accepted)),
            looked: accepted.looked,
        },
        Err(refusal) => Indexed {
            answer: Err(refusal),
            looked: 0,
        },
    }
}

// The same with a pair table and an index of its own, for callers that have no use for them afterwards.
pub fn read_with_own_tables(
    mode: Mode,
    text: &[u8],
    records: &mut [u32],
    reals: &mut [f64],
) -> Result<Counts, Refusal>
    ensures { Reads mode text.now records.old reals.old (answer_of result) records.new reals.new }
{
    let mut pairs = [0; 2 * table::MOST_RECORDS];
    let mut index = [0; index::ENTRIES];
    let r = read_indexed(mode, text, records, reals, &mut pairs, &mut index);
    r.answer
}
