// The hashed index of names, and the one search that every look-up goes through: by the index where one of 2,048 entries is lent,
// else from the latest record back.
#![tactic(auto)]

ghost use Rattle.std.specs.Prelude.{◌≡◌, ◌+◌, ◌*◌, ◌/◌, ◌%◌, ◌≤◌, ◌<◌, length, set};
ghost use Rattle.laws.specs.Bytes.{part, same};
ghost use Rattle.index.specs.Index.{hash, searched, size, stops};
ghost use Rattle.index.specs.Searches.{Hashed, sought};
ghost use Rattle.scene.specs.Record.{name_in};

use table::{NAME, NAME_LENGTH, WIDTH};

// How many entries of an index are used.
pub const ENTRIES: usize = 2048;

// Where a search ends, the number found there, 0 for none, and how many entries were looked at. A search without an index ends
// behind the last entry.
#[derive(Clone, Copy)]
pub struct Found {
    pub entry: usize,
    pub number: usize,
    pub looked: u32,
}

// What four bytes add to a hash.
fn four(a: u8, b: u8, c: u8, d: u8) -> u32
    ensures { result ≡ 29791 * a + 961 * b + 31 * c + d }
{
    961 * (31 * (a as u32) + (b as u32)) + (31 * (c as u32) + (d as u32))
}

// A name's hash with eight bytes more, eight steps of the rule in one: p is what the first four add, q what the last four do.
fn with_eight(h: usize, p: u32, q: u32) -> usize
    requires { h < size }
    ensures { result ≡ (852891037441 * h + (923521 * p + q)) % 2048 }
{
    (852891037441 * h + (923521 * (p as usize) + (q as usize))) % ENTRIES
}

// The hash of so many times eight bytes of a name.
fn by_eights(word: &[u8], eights: usize) -> usize
    requires { eights * 8 ≤ length word.now }
    ensures { Hashed word.now result (eights * 8) }
{
    let mut h: usize = 0;
    for i in 0..eights {
        let at = i * 8;
        let p = four(word[at], word[at + 1], word[at + 2], word[at + 3]);
        let q = four(word[at + 4], word[at + 5], word[at + 6], word[at + 7]);
        h = with_eight(h, p, q);
    }
    h
}

// The hash of as many times four bytes as a name has.
fn by_fours(word: &[u8]) -> usize
    ensures { Hashed word.now result (length word.now / 4 * 4) }
{
    let eights = word.len() / 8;
    let h = by_eights(word, eights);
    let at = eights * 8;
    if word.len() - at < 4 {
        return h;
    }
    let p = four(word[at], word[at + 1], word[at + 2], word[at + 3]);
    (923521 * h + (p as usize)) % ENTRIES
}

// A name's hash.
fn hash(word: &[u8]) -> usize
    ensures { result ≡ hash word.now }
{
    let mut h = by_fours(word);
    for i in word.len() / 4 * 4..word.len() {
        h = (31 * h + word[i] as usize) % ENTRIES;
    }
    h
}

// Whether a word is what the text has of a part of it. Of a part that the text has whole, the length is compared first.
fn is_part(text: &[u8], place: u32, size: u32, word: &[u8]) -> bool
    ensures { result ≡ same word.now (part text.now place size) }
{
    let start = place as usize;
    let len = size as usize;
    let end = start + len;
    if text.len() < end {
        return lexer::same(word, lexer::part(text, start, len));
    }
    if len != word.len() {
        return false;
    }
    lexer::same(word, &text[start..end])
}

// Whether an entry that holds a number ends the search for a name.
fn stops(text: &[u8], records: &[u32], word: &[u8], number: usize) -> bool
    ensures { result ≡ stops (name_in text.now records.now) word.now number }
{
    if number == 0 {
        return true;
    }
    let row = number - 1;
    if records.len() / WIDTH <= row {
        return lexer::same(word, table::name_of(text, records, number));
    }
    let at = row * WIDTH;
    is_part(text, records[at + NAME], records[at + NAME_LENGTH], word)
}

// The search from a name's own entry on, going round.
#[tactic(auto, using(crate::proofs::SearchLaws::at_hit, crate::proofs::SearchLaws::at_last))]
fn probe(text: &[u8], records: &[u32], index: &[u32], word: &[u8]) -> Found
    requires { size ≤ length index.now }
    ensures { result ≡ searched index.now (name_in text.now records.now) word.now }
{
    let mut entry = hash(word);
    for passed in 0..2047u32 {
        let number = index[entry] as usize;
        if stops(text, records, word, number) {
            return Found {
                entry,
                number,
                looked: passed + 1,
            };
        }
        entry = (entry + 1) % ENTRIES;
    }
    Found {
        entry,
        number: index[entry] as usize,
        looked: 2048,
    }
}

// The search for a name among the first `count` records.
pub fn search(text: &[u8], records: &[u32], index: &[u32], count: usize, word: &[u8]) -> Found
    ensures { result ≡ sought text.now records.now index.now count word.now }
{
    if index.len() < ENTRIES {
        return Found {
            entry: index.len(),
            number: lookup::find(text, records, count, word),
            looked: 0,
        };
    }
    probe(text, records, index, word)
}

// Writes a number where a search ended; a search without an index ended behind the last entry.
// The bounds are tested by hand: what `get_mut` leaves of the index tells a proof its length only.
pub fn put(index: &mut [u32], entry: usize, number: u32)
    ensures { index.new ≡ set index.old entry number }
{
    if entry < index.len() {
        index[entry] = number;
    }
}
