// A word reader over a lent text. It knows blanks only: a comment's words are words like any other. The work is done in crate
// `lexer`.
#![tactic(auto)]

ghost use Rattle.std.specs.Prelude.{◌≡◌};
ghost use Rattle.std.specs.Iterator.{YieldsFirst, item_count};
ghost use Rattle.lexer.specs.Word.{word_at, word_bytes, word_end};
ghost use Rattle.word_reader.specs.Words.{words_left};

use lexer::Word;

// The lent text, and the place from which on the next word is looked for.
#[derive(Clone, Copy)]
pub struct WordReader<'a> {
    pub text: &'a [u8],
    pub at: usize,
}

// Functions and no methods: `new` to `next_from` are the names that the pages promise and the host's crate calls.
// A reader at the start of a text.
pub fn new<'a>(text: &'a [u8]) -> WordReader<'a>
    ensures { (result.text ≡ text.entry) × (result.at ≡ 0) }
{
    WordReader { text, at: 0 }
}

// The place where the reader stands now.
pub fn place<'a>(r: WordReader<'a>) -> usize
    ensures { result ≡ r.entry.at }
{
    r.at
}

// The next word; at or past the end an empty word at the text's length.
pub fn next<'a>(r: WordReader<'a>) -> Word
    ensures { result ≡ word_at r.entry.text.now r.entry.at }
{
    lexer::next_word(r.text, r.at)
}

// The bytes of the next word, as a part of the lent text.
pub fn word<'a>(r: WordReader<'a>) -> &'a [u8]
    ensures { result.now ≡ word_bytes r.entry.text.now r.entry.at }
{
    lexer::word_bytes(r.text, r.at)
}

// The reader moved past the next word.
pub fn moved<'a>(r: WordReader<'a>) -> WordReader<'a>
    ensures { (result.text ≡ r.entry.text) × (result.at ≡ word_end r.entry.text.now r.entry.at) }
{
    WordReader {
        text: r.text,
        at: lexer::past_word(r.text, r.at),
    }
}

// The next word of a text from `at` on. Its parameters are plain.
pub fn next_from(text: &[u8], at: usize) -> Word
    ensures { result ≡ word_at text.now at }
{
    next(WordReader { text, at })
}

// The words of a text, one after the other, up to the empty word at its end.
impl Iterator for WordReader<'_> {
    type Item = Word;

    ghost next_gives = { YieldsFirst (λ r. words_left r.text.now r.at) };

    ghost remaining = { item_count (λ r. words_left r.text.now r.at) };

    fn next(&mut self) -> Option<Word> {
        let word = next(*self);
        if word.len == 0 {
            return None;
        }
        *self = moved(*self);
        Some(word)
    }
}
