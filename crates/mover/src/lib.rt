// A scene written out, tidy, with its glass moved.
#![tactic(auto)]

ghost use Rattle.std.specs.Prelude.{◌≡◌, length};
ghost use Rattle.mover.specs.Answer.{Moves, moved_by, moved_refusal};
ghost use Rattle.mover.specs.Code.{LeavesMoved, number_of, reals_in, reals_to};
ghost use Rattle.writer.specs.Answer.{answer_of};
ghost use Rattle.writer.specs.Left.{Leaves};

use moved_text::Change;
use moving::Direction;
use scene::{Mode, Reason, Refusal};
use table::MOST_BYTES;

// One more than a reading can store.
const TOO_MANY: usize = table::MOST_REALS + 1;

// How many reals of its own record n has once it is moved, TOO_MANY at most.
fn reals_in(direction: Direction, text: &[u8], records: &[u32], n: usize) -> usize
    ensures { result ≡ reals_in direction text.now records.now n }
{
    if table::field(records, n, table::TARGET) != 0 {
        return 0;
    }
    match moved_text::change_of(direction, text, records, n) {
        Change::Kept => (table::field(records, n, table::REALS) as usize).min(TOO_MANY),
        Change::Added => 4,
        Change::Dropped => 3,
    }
}

// The reals of the first records once they are moved, TOO_MANY at most.
fn moved_reals(direction: Direction, text: &[u8], records: &[u32], count: usize) -> usize
    ensures { result ≡ reals_to direction text.now records.now count }
{
    let mut total = 0;
    for n in 0..count {
        total = (total + reals_in(direction, text, records, n + 1)).min(TOO_MANY);
    }
    total
}

// Why a moved text is refused: what a reading of it would give, then an output that is too small. That the text is too long is one
// of the facts that the definition `moved_refusal` goes by.
fn check_moved(
    long: bool,
    reals: usize,
    room: usize,
    len: usize,
    output: usize,
) -> Result<(), Reason>
    ensures { number_of result ≡ moved_refusal long reals room len output }
{
    if long {
        return Err(Reason::TextTooLong);
    }
    if room < reals {
        return Err(Reason::NoRoomForReals);
    }
    if output < len {
        return Err(Reason::OutputTooSmall);
    }
    Ok(())
}

// The records of a text moved, put from the output's front on, at so much room for reals. The text may be too long for the output and
// still not for a reading, so it is made apart first.
fn put_moved(
    direction: Direction,
    text: &[u8],
    records: &[u32],
    room: usize,
    count: usize,
    out: &mut [u8],
) -> Result<usize, Refusal>
    ensures { LeavesMoved direction text.now records.now room count out.old (answer_of result) out.new }
{
    let mut made = [0u8; MOST_BYTES];
    let end = moved_text::put_all(&mut made, direction, text, records, count);
    let len = end.at;
    let reals = moved_reals(direction, text, records, count);
    if let Err(reason) = check_moved(end.full, reals, room, len, out.len()) {
        return Err(Refusal { reason, place: 0 });
    }
    buffer::put_bytes(out, 0, lexer::part(&made, 0, len));
    Ok(len)
}

// The same, once the tables are compared with a fresh reading.
fn put_checked(
    mode: Mode,
    direction: Direction,
    text: &[u8],
    records: &[u32],
    reals: &[f64],
    out: &mut [u8],
) -> Result<usize, Refusal>
    ensures { Leaves (moved_by mode direction text.now records.now reals.now (length out.old)) out.old (answer_of result) out.new }
{
    let count = fresh::compare(mode, text, records, reals)?;
    let room = table::MOST_REALS.min(reals.len());
    put_moved(direction, text, records, room, count, out)
}

// Writes the tidy text of a text with its glass moved into a lent output, and answers its length. The tables are to be those that
// reading the text in the same mode leaves; they are compared with a fresh reading, and never written.
#[tactic(auto, using(writer::proofs::AnswerLaws::left_cleared))]
pub fn move_glass(
    mode: Mode,
    direction: Direction,
    text: &[u8],
    records: &[u32],
    reals: &[f64],
    out: &mut [u8],
) -> Result<usize, Refusal>
    ensures { Moves mode direction text.now records.now reals.now out.old (answer_of result) out.new }
{
    let moved = put_checked(mode, direction, text, records, reals, out);
    writer::clear_unused(out, moved)
}
