// The line of two entries whose order is asked about, put into a lent buffer.
#![tactic(auto)]

ghost use Rattle.std.specs.Prelude.{false, ◌++◌, ◌≡◌};
ghost use Rattle.buffer.specs.Decimal.{decimal};
ghost use Rattle.lines.specs.Puts.{Puts};
ghost use Rattle.order_listing.specs.OrderLine.{order_text, pair_line};
ghost use Rattle.order_listing.specs.Told.{told};

use lines::Cursor;
use precedence::Held;

// A number behind a label.
pub fn put_number(out: &mut [u8], c: Cursor, label: &[u8], n: usize) -> Cursor
    ensures { Puts out.old c (label.now ++ decimal n) result out.new }
{
    let mut digits = [b'0'; 20];
    let len = buffer::put_decimal(&mut digits, 0, n);
    let behind_label = lines::put(out, c, label);
    lines::put(out, behind_label, lexer::part(&digits, 0, len))
}

fn put_order(
    out: &mut [u8],
    c: Cursor,
    text: &[u8],
    records: &[u32],
    order: Result<Option<Held>, u32>,
) -> Cursor
    ensures { Puts out.old c (order_text text.now records.now (told order)) result out.new }
{
    match order {
        Ok(None) => lines::put(out, c, b" order=free\n"),
        Ok(Some(held)) => {
            let behind_by = put_number(out, c, b" order=held by=", held.by);
            let behind_label = lines::put(out, behind_by, b" name=");
            let name = table::name_of(text, records, held.named);
            let behind_name = lines::put(out, behind_label, name);
            lines::put(out, behind_name, b"\n")
        }
        Err(reason) => {
            let behind_reason = put_number(out, c, b" refused=", reason as usize);
            lines::put(out, behind_reason, b"\n")
        }
    }
}

// The line of two entries, from the buffer's front on. A refusal goes by its number, which may be any.
pub fn pair_line(
    out: &mut [u8],
    text: &[u8],
    records: &[u32],
    first: usize,
    second: usize,
    order: Result<Option<Held>, u32>,
) -> Cursor
    ensures { Puts out.old (record { at = 0; full = false }) (pair_line text.now records.now first second (told order)) result out.new }
{
    let front = Cursor { at: 0, full: false };
    let behind_first = put_number(out, front, b"first=", first);
    let behind_second = put_number(out, behind_first, b" second=", second);
    put_order(out, behind_second, text, records, order)
}
