// The bytes and words of a text.
#![tactic(auto)]

ghost use Rattle.std.specs.Prelude.{Bool, cond, ℕ, ◌≡◌, min, leb};
ghost use Rattle.laws.specs.Bytes.{part, same};
ghost use Rattle.laws.specs.Runs.{past};
ghost use Rattle.lexer.specs.Class.{class_number, class_of, is_blank, is_good, is_in_line, is_other};
ghost use Rattle.lexer.specs.Fault.{fault_number, number_of};
ghost use Rattle.lexer.specs.Word.{behind_words, checked_at, checked_of, ends_word, word_at, word_bytes, word_end, word_fault};

// What a byte is to a text of words: it separates them, may stand in one, or may not.
#[derive(Clone, Copy, PartialEq, Eq, Debug)]
pub enum Class {
    Blank,
    Good,
    Bad,
}

// The number of each class.
pub const BLANK: u8 = 0;

pub const GOOD: u8 = 1;

pub const BAD: u8 = 2;

impl Class {
    pub fn number(self) -> u8
        ensures { result ≡ class_number self }
    {
        match self {
            Class::Blank => BLANK,
            Class::Good => GOOD,
            Class::Bad => BAD,
        }
    }
}

// A word of a text: where it starts and how many bytes it has.
#[derive(Clone, Copy, PartialEq, Eq, Debug)]
pub struct Word {
    pub place: usize,
    pub len: usize,
}

#[tactic(auto, unfolding(crate::specs::Class::class_of, crate::specs::Class::is_blank, crate::specs::Class::is_good))]
pub fn class_of(b: u8) -> Class
    ensures { class_number result ≡ class_of b }
{
    match b {
        9..=13 | 32 => Class::Blank,
        33..=126 => Class::Good,
        _ => Class::Bad,
    }
}

#[tactic(auto, unfolding(crate::specs::Class::is_blank))]
pub fn is_blank(b: u8) -> bool
    ensures { result ≡ is_blank b }
{
    matches!(b, 9..=13 | 32)
}

#[tactic(auto, unfolding(crate::specs::Class::is_good))]
fn is_good(b: u8) -> bool
    ensures { result ≡ is_good b }
{
    b.is_ascii_graphic()
}

// The first place from `at` on whose byte does not pass, or the text's length. Whatever definition the test meets, the place is that
// of the definition.
fn scan<F: Fn(u8) -> bool>(text: &[u8], at: usize, passes: F) -> usize
    requires { F.IsAlwaysCallable passes }
    ensures { (test : ℕ → Bool) → ((b : ℕ) (r : Bool) → F.post passes b r → r ≡ test b) → result ≡ past test text.now at }
{
    for i in at..text.len() {
        if !passes(text[i]) {
            return i;
        }
    }
    text.len()
}

// The first place from `at` on that holds no blank, or the text's length.
pub fn skip_blanks(text: &[u8], at: usize) -> usize
    ensures { result ≡ past is_blank text.now at }
{
    scan(text, at, is_blank)
}

// The first place from `at` on that holds a blank, or the text's length.
pub fn word_end(text: &[u8], at: usize) -> usize
    ensures { result ≡ past is_other text.now at }
{
    scan(text, at, |b| !is_blank(b))
}

// The first place from `at` on that holds byte 10, or the text's length.
pub fn line_end(text: &[u8], at: usize) -> usize
    ensures { result ≡ past is_in_line text.now at }
{
    scan(text, at, |b| b != b'\n')
}

// The next word from `at` on; at or past the end an empty word at the text's length.
pub fn next_word(text: &[u8], at: usize) -> Word
    ensures { result ≡ word_at text.now at }
{
    let place = skip_blanks(text, at);
    let end = word_end(text, place);
    Word {
        place,
        len: end - place,
    }
}

// The `len` bytes from `place` on: those of them that the text has.
pub fn part(text: &[u8], place: usize, len: usize) -> &[u8]
    ensures { result.now ≡ part text.now place len }
{
    let start = least(place, text.len());
    let end = start + least(len, text.len() - start);
    &text[start..end]
}

// The bytes of the next word from `at` on.
pub fn word_bytes(text: &[u8], at: usize) -> &[u8]
    ensures { result.now ≡ word_bytes text.now at }
{
    let word = next_word(text, at);
    part(text, word.place, word.len)
}

// The first place behind the next word from `at` on.
pub fn past_word(text: &[u8], at: usize) -> usize
    ensures { result ≡ word_end text.now at }
{
    let word = next_word(text, at);
    word.place + word.len
}

// The place behind so many words.
pub fn skip_words(text: &[u8], at: usize, count: usize) -> usize
    ensures { result ≡ behind_words text.now at count }
{
    let mut place = at;
    for _ in 0..count {
        place = past_word(text, place);
    }
    place
}

// The lesser of two lengths.
pub fn least(a: usize, b: usize) -> usize
    ensures { result ≡ min a b }
{
    a.min(b)
}

// Whether two words have the same bytes. The last byte is compared first: names of a kind mostly differ there.
pub fn same(a: &[u8], b: &[u8]) -> bool
    ensures { result ≡ same a.now b.now }
{
    a.len() == b.len() && a.last() == b.last() && a == b
}

// The first place from `at` on whose byte is not good in a word, or the text's length.
pub fn good_end(text: &[u8], at: usize) -> usize
    ensures { result ≡ past is_good text.now at }
{
    scan(text, at, is_good)
}

// Why a word is refused by its bytes alone. The numbers are those of the reasons.
#[derive(Clone, Copy, PartialEq, Eq, Debug)]
pub enum WordFault {
    BadByte = 2,
    TooLong = 3,
}

impl WordFault {
    pub fn number(self) -> u32
        ensures { result ≡ number_of self }
    {
        self as u32
    }
}

// A bad byte comes before a length of over 64 bytes.
pub fn word_fault(word: &[u8]) -> Option<WordFault>
    ensures { fault_number result ≡ word_fault word.now }
{
    if good_end(word, 0) < word.len() {
        return Some(WordFault::BadByte);
    }
    long_fault(word.len())
}

// A word with what is wrong with its bytes.
#[derive(Clone, Copy, PartialEq, Eq, Debug)]
pub struct Checked {
    pub place: usize,
    pub len: usize,
    pub fault: Option<WordFault>,
}

// Whether no word goes on at a place: a blank or the text's end is there.
#[tactic(auto, unfolding(crate::specs::Word::ends_word))]
pub fn ends_word(text: &[u8], at: usize) -> bool
    ensures { result ≡ ends_word text.now at }
{
    match text.get(at) {
        Some(b) => is_blank(*b),
        None => true,
    }
}

fn long_fault(len: usize) -> Option<WordFault>
    ensures { fault_number result ≡ cond (leb len 64) 0 3 }
{
    if 64 < len {
        return Some(WordFault::TooLong);
    }
    None
}

// The next word from `at` on and its fault. A good word is gone over once.
pub fn checked_word(text: &[u8], at: usize) -> Checked
    ensures { checked_of result ≡ checked_at text.now at }
{
    let place = skip_blanks(text, at);
    let end = good_end(text, place);
    if ends_word(text, end) {
        let len = end - place;
        return Checked {
            place,
            len,
            fault: long_fault(len),
        };
    }
    let len = word_end(text, place) - place;
    Checked {
        place,
        len,
        fault: word_fault(part(text, place, len)),
    }
}
