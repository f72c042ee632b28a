// The moved text of records, put into a lent output.
#![tactic(auto)]

ghost use Rattle.std.specs.Prelude.{false, ◌≡◌};
ghost use Rattle.lines.specs.Puts.{Puts};
ghost use Rattle.moved_text.specs.MovedText.{change_of, glass_text, moved_row, moved_rows, spelled_at};

use kinds::GLASS;
use lines::Cursor;
use moving::Direction;

// What becomes of a record's reals.
#[derive(Clone, Copy)]
pub enum Change {
    Kept,
    Added,
    Dropped,
}

// Whether the fourth real of record n is spelled `1.52`.
fn is_spelled(text: &[u8], records: &[u32], n: usize) -> bool
    ensures { result ≡ spelled_at text.now records.now n }
{
    let name = table::field(records, n, table::NAME) as usize;
    let place = lexer::skip_words(text, name, 7);
    lexer::same(lexer::word_bytes(text, place), b"1.52")
}

// The change to record n: only glass that is no alias is moved, forth from three reals and back from four.
pub fn change_of(direction: Direction, text: &[u8], records: &[u32], n: usize) -> Change
    ensures { result ≡ change_of direction text.now records.now n }
{
    if table::field(records, n, table::TARGET) != 0 {
        return Change::Kept;
    }
    if table::field(records, n, table::KIND) != GLASS {
        return Change::Kept;
    }
    let reals = table::field(records, n, table::REALS);
    match direction {
        Direction::Forth => {
            if reals == 3 {
                return Change::Added;
            }
            Change::Kept
        }
        Direction::Back => {
            if (reals == 4) & is_spelled(text, records, n) {
                return Change::Dropped;
            }
            Change::Kept
        }
    }
}

// Glass n with three reals of the text, behind their count and before the end of their line.
fn put_glass(
    out: &mut [u8],
    c: Cursor,
    text: &[u8],
    records: &[u32],
    n: usize,
    count: &[u8],
    end: &[u8],
) -> Cursor
    ensures { Puts out.old c (glass_text text.now records.now n count.now end.now) result out.new }
{
    let name = table::field(records, n, table::NAME) as usize;
    let behind_head = record_text::put_head(out, c, text, records, n, b"glass");
    let behind_lines = lines::put(out, behind_head, b"\n0\n0\n");
    let behind_count = lines::put(out, behind_lines, count);
    let real = lexer::skip_words(text, name, 4);
    let behind_words = lines::put_words(out, behind_count, text, real, 3);
    lines::put(out, behind_words, end)
}

// Record n, moved.
fn put_moved(
    out: &mut [u8],
    c: Cursor,
    direction: Direction,
    text: &[u8],
    records: &[u32],
    n: usize,
) -> Cursor
    ensures { Puts out.old c (moved_row direction text.now records.now n) result out.new }
{
    match change_of(direction, text, records, n) {
        Change::Kept => record_text::put_record(out, c, text, records, n),
        Change::Added => put_glass(out, c, text, records, n, b"4", b" 1.52\n"),
        Change::Dropped => put_glass(out, c, text, records, n, b"3", b"\n"),
    }
}

// The first records of a table, moved, from the output's front on.
pub fn put_all(
    out: &mut [u8],
    direction: Direction,
    text: &[u8],
    records: &[u32],
    count: usize,
) -> Cursor
    ensures { Puts out.old (record { at = 0; full = false }) (moved_rows direction text.now records.now count) result out.new }
{
    let mut end = Cursor { at: 0, full: false };
    for n in 0..count {
        end = put_moved(out, end, direction, text, records, n + 1);
    }
    end
}
