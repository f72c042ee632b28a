// An order of both hands' records beside texts: its own tidy text, and whether a typed scene holds it. Both hands' texts are read
// again, and where one of them is refused nothing is said. Both are numbered together, right's records first, then left's.
#![tactic(auto)]

ghost use Rattle.std.specs.Prelude.{◌≡◌};
ghost use Rattle.joined_hands.specs.Hands.{HoldsHands, PutsHands, RoomFor, holds_rows};

use content::Scene;
use lines::Cursor;
use scene::Mode;
use table::{MOST_NUMBERS, MOST_REALS, MOST_RECORDS, WIDTH};

// Puts the text of an order from the output's front on. Both hands are read into tables of so many numbers and reals.
pub fn put_hands(
    mode: Mode,
    numbers: usize,
    reals: usize,
    left: &[u8],
    right: &[u8],
    order: &[usize],
    out: &mut [u8],
) -> Cursor
    ensures { PutsHands mode numbers reals left.now right.now order.now out.old result out.new }
{
    let n = numbers.min(MOST_NUMBERS);
    let k = reals.min(MOST_REALS);
    let mut left_records = [0u32; MOST_NUMBERS];
    let mut left_reals = [0.0f64; MOST_REALS];
    let mut right_records = [0u32; MOST_NUMBERS];
    let mut right_reals = [0.0f64; MOST_REALS];
    match pair::read_both(
        mode,
        left,
        &mut left_records[..n],
        &mut left_reals[..k],
        right,
        &mut right_records[..n],
        &mut right_reals[..k],
    ) {
        Err(_) => Cursor { at: 0, full: false },
        Ok(counts) => joined_text::put_order(
            out,
            left,
            table::first_records(&left_records[..n], counts.left.primitives),
            right,
            table::first_records(&right_records[..n], counts.right.primitives),
            order,
        ),
    }
}

// Whether a typed scene holds an order of both hands' records and no more.
fn holds_rows(left: Scene<'_>, right: Scene<'_>, typed: Scene<'_>, order: &[usize]) -> bool
    requires { RoomFor left.records.now right.records.now }
    ensures { result ≡ holds_rows left.entry.text.now left.entry.records.now left.entry.reals.now right.entry.text.now right.entry.records.now right.entry.reals.now typed.entry.text.now typed.entry.records.now typed.entry.reals.now order.now }
{
    let lefts = left.records.len() / WIDTH;
    let rights = right.records.len() / WIDTH;
    let mut left_matches = [0usize; MOST_RECORDS];
    let mut right_matches = [0usize; MOST_RECORDS];
    matching::match_all(left, typed, &mut left_matches[..lefts]);
    matching::match_all(right, typed, &mut right_matches[..rights]);
    typed_matches::all_held(
        &right_matches[..rights],
        &left_matches[..lefts],
        order,
        typed.text,
        typed.records,
    )
}

// Whether a typed scene holds an order and no more. Its tables are those that reading it leaves, with so many records; both hands are
// read into as many numbers and reals.
pub fn holds(
    mode: Mode,
    left: &[u8],
    right: &[u8],
    typed: &[u8],
    typed_records: &[u32],
    typed_reals: &[f64],
    count: usize,
    order: &[usize],
) -> bool
    ensures { HoldsHands mode left.now right.now typed.now typed_records.now typed_reals.now count order.now result }
{
    let n = typed_records.len().min(MOST_NUMBERS);
    let k = typed_reals.len().min(MOST_REALS);
    let mut left_records = [0u32; MOST_NUMBERS];
    let mut left_reals = [0.0f64; MOST_REALS];
    let mut right_records = [0u32; MOST_NUMBERS];
    let mut right_reals = [0.0f64; MOST_REALS];
    match pair::read_both(
        mode,
        left,
        &mut left_records[..n],
        &mut left_reals[..k],
        right,
        &mut right_records[..n],
        &mut right_reals[..k],
    ) {
        Err(_) => false,
        Ok(counts) => holds_rows(
            Scene {
                text: left,
                records: table::first_records(&left_records[..n], counts.left.primitives),
                reals: &left_reals[..k],
            },
            Scene {
                text: right,
                records: table::first_records(&right_records[..n], counts.right.primitives),
                reals: &right_reals[..k],
            },
            Scene {
                text: typed,
                records: table::first_records(typed_records, count),
                reals: typed_reals,
            },
            order,
        ),
    }
}
