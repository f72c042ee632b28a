// The line of a place, and that of a name, counted as the names come.
#![tactic(auto)]

ghost use Rattle.std.specs.Prelude.{cond, ◌≡◌, ◌≤◌, eqb};
ghost use Rattle.line_numbers.specs.Lines.{line_before, line_from};
ghost use Rattle.scene.specs.Record.{line_at, newlines};

use table::{LINE, NAME};

// 1 for a byte that ends a line, else 0.
pub fn ends_line(b: u8) -> usize
    ensures { result ≡ cond (eqb b 10) 1 0 }
{
    usize::from(b == b'\n')
}

// How many lines end in a text.
fn line_ends(text: &[u8]) -> usize
    ensures { result ≡ newlines text.now }
{
    let mut lines = 0;
    for b in text {
        lines += ends_line(*b);
    }
    lines
}

// The line of a place, from 1.
pub fn line_at(text: &[u8], place: usize) -> usize
    ensures { result ≡ line_at text.now place }
{
    line_ends(lexer::part(text, 0, place)) + 1
}

// The line of the name of record `count`, from 1; before the first record it is that of the text's start.
fn line_before(records: &[u32], count: usize) -> usize
    ensures value { result ≡ line_before records.now count }
    ensures upper_bound { result ≤ 4294967295 }
{
    if count == 0 {
        return 1;
    }
    table::field(records, count, LINE) as usize
}

// The line of a name at a place, counted on from the name before it, that of record `count`: so over all names no byte of the text
// is looked at twice.
pub fn line_of(text: &[u8], records: &[u32], count: usize, place: usize) -> usize
    ensures { result ≡ line_from text.now records.now count place }
{
    let from = table::field(records, count, NAME) as usize;
    let passed = lexer::part(text, from, place.saturating_sub(from));
    let more = line_ends(passed);
    line_before(records, count) + more
}
