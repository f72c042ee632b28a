// A scene written out, tidy.
#![tactic(auto)]

ghost use Rattle.std.specs.Prelude.{◌++◌, ◌≡◌, ◌-◌, length, replicate, take};
ghost use Rattle.writer.specs.Answer.{Writes, answer_of, tidied};
ghost use Rattle.writer.specs.Left.{Leaves, length_put, used};

use lines::Cursor;
use scene::{Mode, Reason, Refusal};

// Zeroes the output from a place on.
pub fn clear_from(out: &mut [u8], at: usize)
    ensures { out.new ≡ take at out.old ++ replicate (length out.old - at) 0 }
{
    let start = at.min(out.len());
    out[start..].fill(0);
}

// Zeroes what an answer leaves unused of the output: all of it where it is a refusal.
pub fn clear_unused(out: &mut [u8], written: Result<usize, Refusal>) -> Result<usize, Refusal>
    ensures value { result ≡ written }
    ensures out_after { out.new ≡ take (used written) out.old ++ replicate (length out.old - used written) 0 }
{
    clear_from(out, written.unwrap_or(0));
    written
}

// The length of a text that was put from an output's front on, if the output had room for it.
pub fn put_length(end: Cursor) -> Result<usize, Refusal>
    ensures { answer_of result ≡ length_put end }
{
    if end.full {
        return Err(Refusal {
            reason: Reason::OutputTooSmall,
            place: 0,
        });
    }
    Ok(end.at)
}

// The tidy text of a text whose tables match, put from the output's front on.
fn put_tidy(
    mode: Mode,
    text: &[u8],
    records: &[u32],
    reals: &[f64],
    out: &mut [u8],
) -> Result<usize, Refusal>
    ensures { Leaves (tidied mode text.now records.now reals.now (length out.old)) out.old (answer_of result) out.new }
{
    let count = fresh::compare(mode, text, records, reals)?;
    put_length(record_text::put_records(out, text, records, count))
}

// Writes the tidy text of a text into a lent output, and answers its length. The tables are to be those that reading the text in the
// same mode leaves; they are compared with a fresh reading, and never written.
#[tactic(auto, using(crate::proofs::AnswerLaws::left_cleared))]
pub fn write(
    mode: Mode,
    text: &[u8],
    records: &[u32],
    reals: &[f64],
    out: &mut [u8],
) -> Result<usize, Refusal>
    ensures { Writes mode text.now records.now reals.now out.old (answer_of result) out.new }
{
    let written = put_tidy(mode, text, records, reals, out);
    clear_unused(out, written)
}
