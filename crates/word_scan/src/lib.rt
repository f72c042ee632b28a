// What stands next in a text, gone over once: a word, a count, a numeral or a comment, with the lines that end on the way.
#![tactic(auto)]

ghost use Rattle.std.specs.Prelude.{◌≡◌, ◌+◌, IfSome};
ghost use Rattle.laws.specs.Runs.{past};
ghost use Rattle.lexer.specs.Class.{is_blank};
ghost use Rattle.scene.specs.Record.{line_at};
ghost use Rattle.word_scan.specs.Passing.{PassesComment, PassesCount, PassesReal, PassesWord};

// The place behind blanks, and how many lines end before it.
#[derive(Clone, Copy)]
struct Gap {
    place: usize,
    lines: usize,
}

// A good word: its place and length, the place behind the byte that ends it, and how many lines end before the word and before that
// place.
#[derive(Clone, Copy)]
pub struct Passed {
    pub place: usize,
    pub len: usize,
    pub next: usize,
    pub before: usize,
    pub lines: usize,
}

// A count or a numeral that is a good word: its value, the place behind the byte that ends it, and how many lines end before that
// place.
#[derive(Clone, Copy)]
pub struct Valued<T> {
    pub value: T,
    pub next: usize,
    pub lines: usize,
}

// A comment where a statement may begin: the place behind its line, and how many lines end before that place.
#[derive(Clone, Copy)]
pub struct Skipped {
    pub next: usize,
    pub lines: usize,
}

// How many lines end at a place.
fn line_ends(text: &[u8], at: usize) -> usize
    ensures { line_at text.now at + result ≡ line_at text.now (at + 1) }
{
    match text.get(at) {
        Some(&b) => line_numbers::ends_line(b),
        None => 0,
    }
}

// The first place from `at` on that holds no blank, or the text's length.
fn skip(text: &[u8], at: usize) -> Gap
    ensures place_value { result.place ≡ past is_blank text.now at }
    ensures lines_value { line_at text.now at + result.lines ≡ line_at text.now result.place }
{
    let mut lines = 0;
    for place in at..text.len() {
        let b = text[place];
        if !lexer::is_blank(b) {
            return Gap { place, lines };
        }
        lines += line_numbers::ends_line(b);
    }
    Gap {
        place: text.len(),
        lines,
    }
}

// The next word from `at` on, where it is good.
pub fn word(text: &[u8], at: usize) -> Option<Passed>
    ensures { IfSome result (PassesWord text.now at) }
{
    let gap = skip(text, at);
    let place = gap.place;
    let end = lexer::good_end(text, place);
    let len = end - place;
    if len == 0 || 64 < len {
        return None;
    }
    if !lexer::ends_word(text, end) {
        return None;
    }
    Some(Passed {
        place,
        len,
        next: end + 1,
        before: gap.lines,
        lines: gap.lines + line_ends(text, end),
    })
}

// The count that the next word from `at` on is.
fn count_in(text: &[u8], at: usize) -> Option<Valued<u32>>
    ensures { IfSome result (PassesCount text.now at) }
{
    let w = word(text, at)?;
    let value = numeral::count_of(lexer::part(text, w.place, w.len))?;
    Some(Valued {
        value,
        next: w.next,
        lines: w.lines,
    })
}

// The next word from `at` on as a count. One digit is read by itself.
pub fn count(text: &[u8], at: usize) -> Option<Valued<u32>>
    ensures { IfSome result (PassesCount text.now at) }
{
    let gap = skip(text, at);
    let b = *text.get(gap.place)?;
    if !numeral_parts::is_digit(b) {
        return None;
    }
    let end = gap.place + 1;
    if !lexer::ends_word(text, end) {
        return count_in(text, at);
    }
    Some(Valued {
        value: u32::from(b - b'0'),
        next: end + 1,
        lines: gap.lines + line_ends(text, end),
    })
}

// The next word from `at` on as a numeral.
pub fn real(text: &[u8], at: usize) -> Option<Valued<f64>>
    ensures { IfSome result (PassesReal text.now at) }
{
    let gap = skip(text, at);
    let scanned = numeral_scan::numeral_from(text, gap.place)?;
    let end = scanned.end;
    if 64 < end - gap.place {
        return None;
    }
    Some(Valued {
        value: scanned.value,
        next: end + 1,
        lines: gap.lines + line_ends(text, end),
    })
}

// The comment that stands next from `at` on, where a statement may begin there.
pub fn comment(text: &[u8], at: usize) -> Option<Skipped>
    ensures { IfSome result (PassesComment text.now at) }
{
    let gap = skip(text, at);
    if *text.get(gap.place)? != b'#' {
        return None;
    }
    let end = lexer::line_end(text, gap.place);
    Some(Skipped {
        next: end + 1,
        lines: gap.lines + line_ends(text, end),
    })
}
