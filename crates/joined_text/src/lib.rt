// The tidy text of two hands' records in an order of their numbers, right's first, then left's, put into a lent output.
#![tactic(auto)]

ghost use Rattle.std.specs.Prelude.{false};
ghost use Rattle.lines.specs.Puts.{Puts};
ghost use Rattle.joined_text.specs.JoinedText.{number_text, order_text};

use lines::Cursor;
use table::WIDTH;

// Number n.
fn put_number(
    out: &mut [u8],
    c: Cursor,
    left: &[u8],
    left_records: &[u32],
    right: &[u8],
    right_records: &[u32],
    n: usize,
) -> Cursor
    ensures { Puts out.old c (number_text left.now left_records.now right.now right_records.now n) result out.new }
{
    let split = right_records.len() / WIDTH;
    if n <= split {
        return record_text::put_record(out, c, right, right_records, n);
    }
    record_text::put_record(out, c, left, left_records, n - split)
}

// All numbers of an order, from the output's front on.
pub fn put_order(
    out: &mut [u8],
    left: &[u8],
    left_records: &[u32],
    right: &[u8],
    right_records: &[u32],
    order: &[usize],
) -> Cursor
    ensures { Puts out.old (record { at = 0; full = false }) (order_text left.now left_records.now right.now right_records.now order.now) result out.new }
{
    let mut end = Cursor { at: 0, full: false };
    for n in order {
        end = put_number(out, end, left, left_records, right, right_records, *n);
    }
    end
}
