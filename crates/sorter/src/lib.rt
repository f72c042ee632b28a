// A scene sorted: its statements grouped by type, each with the comments above it.
#![tactic(auto)]

ghost use Rattle.std.specs.Prelude.{length};
ghost use Rattle.block_text.specs.BlockText.{WritesBlocks};
ghost use Rattle.sorter.specs.Answer.{Sorts, sorted_by};
ghost use Rattle.sorter.specs.Code.{Fills, LeavesSorted, order_in};
ghost use Rattle.writer.specs.Answer.{answer_of};

use scene::{Mode, Refusal};
use table::MOST_RECORDS;

// A text that is cut into blocks, sorted.
fn write_cut(text: &[u8], records: &[u32], ends: &[usize], out: &mut [u8]) -> Result<usize, Refusal>
    ensures { WritesBlocks text.now ends.now (order_in text.now records.now (length ends.now)) out.old (answer_of result) out.new }
{
    let count = ends.len().min(MOST_RECORDS);
    let mut classes = [0usize; MOST_RECORDS];
    ties::classes(text, records, &mut classes[..count]);
    let mut order = [0usize; MOST_RECORDS];
    grouping::order(records, &classes[..count], &mut order[..count]);
    block_text::write_blocks(text, ends, &order[..count], out)
}

// The records of a text, cut into blocks and sorted.
fn put_sorted(text: &[u8], records: &[u32], count: usize, out: &mut [u8]) -> Result<usize, Refusal>
    ensures { LeavesSorted text.now records.now count out.old (answer_of result) out.new }
{
    let many = count.min(MOST_RECORDS);
    let mut ends = [0usize; MOST_RECORDS];
    blocks::block_ends(text, records, &mut ends[..many])?;
    write_cut(text, records, &ends[..many], out)
}

// The same, once the tables are compared with a fresh reading.
fn put_checked(
    mode: Mode,
    text: &[u8],
    records: &[u32],
    reals: &[f64],
    out: &mut [u8],
) -> Result<usize, Refusal>
    ensures { Fills (sorted_by mode text.now records.now reals.now (length out.old)) out.old (answer_of result) out.new }
{
    let count = fresh::compare(mode, text, records, reals)?;
    put_sorted(text, records, count, out)
}

// Writes a text with its statements sorted into a lent output, and answers its length. The tables are to be those that reading the
// text in the same mode leaves; they are compared with a fresh reading, and never written.
pub fn sort(
    mode: Mode,
    text: &[u8],
    records: &[u32],
    reals: &[f64],
    out: &mut [u8],
) -> Result<usize, Refusal>
    ensures { Sorts mode text.now records.now reals.now out.old (answer_of result) out.new }
{
    let sorted = put_checked(mode, text, records, reals, out);
    if sorted.is_err() {
        out.fill(0);
    }
    sorted
}
