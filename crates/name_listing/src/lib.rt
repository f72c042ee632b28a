// The line of a name that is given more than once, put into a lent buffer.
#![tactic(auto)]

ghost use Rattle.std.specs.Prelude.{false, ◌≡◌};
ghost use Rattle.lines.specs.Puts.{Puts};
ghost use Rattle.name_listing.specs.NameLine.{definition_text, definition_texts, first_user, later_text, later_users, name_line, uses, users_text};

use lines::Cursor;
use order_listing::put_number;

// Whether record j has record d as its modifier or its alias target.
fn uses(records: &[u32], d: usize, j: usize) -> bool
    ensures { result ≡ uses records.now d j }
{
    let modifier = table::field(records, j, table::MODIFIER) as usize;
    let target = table::field(records, j, table::TARGET) as usize;
    (modifier == d) | (target == d)
}

// The first record that does, 0 for none.
fn first_user(records: &[u32], d: usize, count: usize) -> usize
    ensures { result ≡ first_user records.now d count }
{
    for j in 0..count {
        if uses(records, d, j + 1) {
            return j + 1;
        }
    }
    0
}

// Record j behind a comma, if it does and is not the first.
fn put_later(out: &mut [u8], c: Cursor, records: &[u32], d: usize, first: usize, j: usize) -> Cursor
    ensures { Puts out.old c (later_text records.now d first j) result out.new }
{
    if (first < j) & uses(records, d, j) {
        return put_number(out, c, b",", j);
    }
    c
}

fn put_laters(
    out: &mut [u8],
    c: Cursor,
    records: &[u32],
    d: usize,
    first: usize,
    count: usize,
) -> Cursor
    ensures { Puts out.old c (later_users records.now d first count) result out.new }
{
    let mut end = c;
    for j in 0..count {
        end = put_later(out, end, records, d, first, j + 1);
    }
    end
}

// The records that use definition d, with commas between them.
fn put_users(out: &mut [u8], c: Cursor, records: &[u32], d: usize, count: usize) -> Cursor
    ensures { Puts out.old c (users_text records.now d count) result out.new }
{
    let first = first_user(records, d, count);
    if first == 0 {
        return c;
    }
    let behind_first = put_number(out, c, b"", first);
    put_laters(out, behind_first, records, d, first, count)
}

fn put_definition(out: &mut [u8], c: Cursor, records: &[u32], count: usize, d: usize) -> Cursor
    ensures { Puts out.old c (definition_text records.now count d) result out.new }
{
    let behind_number = put_number(out, c, b" no=", d);
    let row = table::field(records, d, table::LINE) as usize;
    let behind_line = put_number(out, behind_number, b" line=", row);
    let behind_label = lines::put(out, behind_line, b" used=");
    put_users(out, behind_label, records, d, count)
}

// The definitions of a name from one on, each the next of the one before it.
fn put_definitions(out: &mut [u8], c: Cursor, records: &[u32], count: usize, first: usize) -> Cursor
    ensures { Puts out.old c (definition_texts records.now count count first) result out.new }
{
    let mut end = c;
    let mut d = first;
    for _done in 0..count {
        if d == 0 {
            return end;
        }
        end = put_definition(out, end, records, count, d);
        d = table::field(records, d, table::NEXT) as usize;
    }
    end
}

// The line of a name, from its first definition and the buffer's front on.
pub fn name_line(out: &mut [u8], text: &[u8], records: &[u32], count: usize, n: usize) -> Cursor
    ensures { Puts out.old (record { at = 0; full = false }) (name_line text.now records.now count n) result out.new }
{
    let front = Cursor { at: 0, full: false };
    let behind_label = lines::put(out, front, b"name=");
    let behind_name = lines::put(out, behind_label, table::name_of(text, records, n));
    let behind_all = put_definitions(out, behind_name, records, count, n);
    lines::put(out, behind_all, b"\n")
}
