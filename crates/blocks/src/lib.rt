// Where the blocks of a text end, one for each record of its table. Tables may hold anything.
#![tactic(auto)]

ghost use Rattle.std.specs.Prelude.{◌≡◌, length};
ghost use Rattle.rearrangement.specs.Blocks.{behind_line, lines_end, uncrowded};
ghost use Rattle.rearrangement.specs.Layout.{first_word};
ghost use Rattle.blocks.specs.Code.{Cuts, crowded_in, end_in, ends_to, tail_in, verdict_in, verdict_of};

use scene::{Reason, Refusal};

// How many words record n has from its name on.
fn tail_words(records: &[u32], n: usize) -> usize
    ensures { result ≡ tail_in records.now n }
{
    if table::field(records, n, table::TARGET) != 0 {
        return 2;
    }
    let strings = table::field(records, n, table::STRINGS) as usize;
    let reals = table::field(records, n, table::REALS) as usize;
    4 + strings + reals
}

// The place behind the last word of record n; 0 for none.
fn end_of(text: &[u8], records: &[u32], n: usize) -> usize
    ensures { result ≡ end_in text.now records.now n }
{
    if n == 0 {
        return 0;
    }
    let name = table::field(records, n, table::NAME) as usize;
    lexer::skip_words(text, name, tail_words(records, n))
}

// The place behind the line of a place.
fn behind_line(text: &[u8], at: usize) -> usize
    ensures { result ≡ behind_line text.now at }
{
    let end = lexer::line_end(text, at);
    end.saturating_add(1).min(text.len())
}

// The first place from `at` on that is neither blank nor in a comment, or the text's length.
fn first_word(text: &[u8], at: usize) -> usize
    ensures { result ≡ first_word text.now at }
{
    let mut place = lexer::skip_blanks(text, at);
    while place < text.len() {
        if text[place] != b'#' {
            return place;
        }
        place = lexer::skip_blanks(text, lexer::line_end(text, place));
    }
    text.len()
}

// Whether the text's last line is ended, if it has one.
fn lines_end(text: &[u8]) -> bool
    ensures { result ≡ lines_end text.now }
{
    match text.last() {
        Some(b) => *b == b'\n',
        None => true,
    }
}

// Refuses a text in which some record begins on the line on which the one before it ends.
fn check_crowding(text: &[u8], records: &[u32], count: usize) -> Result<(), Refusal>
    ensures { verdict_of result ≡ uncrowded (crowded_in text.now records.now count) }
{
    for n in 1..count {
        let end = end_of(text, records, n);
        let start = first_word(text, end);
        if start < behind_line(text, end) {
            return Err(Refusal {
                reason: Reason::LineOfTwo,
                place: start,
            });
        }
    }
    Ok(())
}

// Whether the text can be cut, or why not, and where.
fn check(text: &[u8], records: &[u32], count: usize) -> Result<(), Refusal>
    ensures { verdict_of result ≡ verdict_in text.now records.now count }
{
    if lines_end(text) {
        return check_crowding(text, records, count);
    }
    Err(Refusal {
        reason: Reason::LastLineOpen,
        place: text.len(),
    })
}

fn put_ends(text: &[u8], records: &[u32], ends: &mut [usize])
    ensures { ends.new ≡ ends_to text.now records.now (length ends.old) }
{
    for (i, end) in ends.iter_mut().enumerate() {
        *end = behind_line(text, end_of(text, records, i + 1));
    }
}

// Where the blocks of the first records end, as many as the table takes; a refusal zeroes it.
pub fn block_ends(text: &[u8], records: &[u32], ends: &mut [usize]) -> Result<(), Refusal>
    ensures { Cuts text.now records.now (length ends.old) result ends.new }
{
    match check(text, records, ends.len()) {
        Err(refusal) => {
            ends.fill(0);
            Err(refusal)
        }
        Ok(()) => {
            put_ends(text, records, ends);
            Ok(())
        }
    }
}
