// Words and argument lines of a tidy text, put into a lent output one behind the other.
#![tactic(auto)]

ghost use Rattle.std.specs.Prelude.{◌∷◌, ◌≡◌};
ghost use Rattle.laws.specs.Bytes.{byte};
ghost use Rattle.scene.specs.Told.{words_from};
ghost use Rattle.tidying.specs.Tidy.{counted, spaced};
ghost use Rattle.lines.specs.Arguments.{argument_lines};
ghost use Rattle.lines.specs.Puts.{Puts};

// Where the next byte goes, and whether some byte did not fit.
// The output is no part of it: the definition `Puts` has the two apart, and callers clear what is left of the output.
#[derive(Clone, Copy, PartialEq, Eq, Debug)]
pub struct Cursor {
    pub at: usize,
    pub full: bool,
}

pub fn put(out: &mut [u8], c: Cursor, new: &[u8]) -> Cursor
    ensures { Puts out.old c new.now result out.new }
{
    let room = out.len().saturating_sub(c.at);
    let full = c.full | (room < new.len());
    let at = buffer::put_bytes(out, c.at, new);
    Cursor { at, full }
}

// A word behind a space.
pub fn put_spaced(out: &mut [u8], c: Cursor, word: &[u8]) -> Cursor
    ensures { Puts out.old c (byte " " ∷ word.now) result out.new }
{
    let behind_space = put(out, c, b" ");
    put(out, behind_space, word)
}

// So many words of the text, each behind a space.
pub fn put_words(out: &mut [u8], c: Cursor, text: &[u8], from: usize, count: usize) -> Cursor
    ensures { Puts out.old c (spaced (words_from text.now from count)) result out.new }
{
    let mut end = c;
    let mut place = from;
    for _ in 0..count {
        end = put_spaced(out, end, lexer::word_bytes(text, place));
        place = lexer::past_word(text, place);
    }
    end
}

// A line of so many words of the text with their count before them.
fn put_counted(out: &mut [u8], c: Cursor, text: &[u8], from: usize, count: usize) -> Cursor
    ensures { Puts out.old c (counted (words_from text.now from count)) result out.new }
{
    let mut digits = [b'0'; 20];
    let len = buffer::put_decimal(&mut digits, 0, count);
    let behind_count = put(out, c, lexer::part(&digits, 0, len));
    let behind_words = put_words(out, behind_count, text, from, count);
    put(out, behind_words, b"\n")
}

// The three argument lines of a primitive whose name stands at a place, with so many strings and reals.
pub fn put_arguments(
    out: &mut [u8],
    c: Cursor,
    text: &[u8],
    name: usize,
    strings: u32,
    reals: u32,
) -> Cursor
    ensures { Puts out.old c (argument_lines text.now name strings reals) result out.new }
{
    let string_count = strings as usize;
    let real_count = reals as usize;
    let string = lexer::skip_words(text, name, 2);
    let real = lexer::skip_words(text, name, 4 + string_count);
    let behind_strings = put_counted(out, c, text, string, string_count);
    let behind_integers = put(out, behind_strings, b"0\n");
    put_counted(out, behind_integers, text, real, real_count)
}
