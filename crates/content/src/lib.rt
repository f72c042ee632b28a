// What two primitives are, compared: type, strings, reals by their bits, and the keys of alias target and modifier. Over texts
// and tables that may hold anything.
#![tactic(auto)]

ghost use Rattle.std.specs.Prelude.{[], ◌≡◌};
ghost use Rattle.bits.specs.Bits.{same_reals};
ghost use Rattle.keys.specs.Key.{key_of, same_key};
ghost use Rattle.scene.specs.Record.{field_in, record_in};
ghost use Rattle.scene.specs.Told.{words_from};
ghost use Rattle.content.specs.Content.{content_in, same_but_links, same_content, same_words};
ghost use Rattle.scene.specs.Told.{reals_of, strings_of};
ghost use Rattle.content.specs.Scene.{bare_rows};

use table::{KIND, MODIFIER, STRING, STRINGS, TARGET};

// A scene as it is lent: its text, the table of its records, and the table of their reals.
#[derive(Clone, Copy)]
pub struct Scene<'a> {
    pub text: &'a [u8],
    pub records: &'a [u32],
    pub reals: &'a [f64],
}

impl<'a> Scene<'a> {
    // Number k of record n: a place, a count, or the number that a link leads to.
    pub fn number(self, n: usize, k: usize) -> usize
        ensures { result ≡ field_in self.entry.records.now n k }
    {
        table::field(self.records, n, k) as usize
    }

    fn reals_of(self, n: usize) -> &'a [f64]
        ensures { result.now ≡ reals_of self.entry.reals.now (record_in self.entry.records.now n) }
    {
        table::reals_of(self.records, self.reals, n)
    }
}

// Whether n words of one text agree with as many of another.
fn same_words(a: &[u8], i: usize, b: &[u8], j: usize, n: usize) -> bool
    ensures { result ≡ same_words (words_from a.now i n) (words_from b.now j n) }
{
    let mut p = i;
    let mut q = j;
    for _k in 0..n {
        if !lexer::same(lexer::word_bytes(a, p), lexer::word_bytes(b, q)) {
            return false;
        }
        p = lexer::past_word(a, p);
        q = lexer::past_word(b, q);
    }
    true
}

fn same_strings(a: Scene<'_>, m: usize, b: Scene<'_>, n: usize) -> bool
    ensures { result ≡ same_words (strings_of a.entry.text.now (record_in a.entry.records.now m)) (strings_of b.entry.text.now (record_in b.entry.records.now n)) }
{
    let many = a.number(m, STRINGS);
    if many != b.number(n, STRINGS) {
        return false;
    }
    let i = a.number(m, STRING);
    let j = b.number(n, STRING);
    same_words(a.text, i, b.text, j, many)
}

// Whether number m of one scene and number n of another have the same reals.
pub fn same_reals(a: Scene<'_>, m: usize, b: Scene<'_>, n: usize) -> bool
    ensures { result ≡ same_reals (reals_of a.entry.reals.now (record_in a.entry.records.now m)) (reals_of b.entry.reals.now (record_in b.entry.records.now n)) }
{
    bits::same_bits(a.reals_of(m), b.reals_of(n))
}

// Whether link k of a primitive in each scene leads to the same key.
fn same_link(a: Scene<'_>, m: usize, b: Scene<'_>, n: usize, k: usize) -> bool
    ensures { result ≡ same_key (key_of (bare_rows a.entry) (field_in a.entry.records.now m k)) (key_of (bare_rows b.entry) (field_in b.entry.records.now n k)) }
{
    let i = a.number(m, k);
    let j = b.number(n, k);
    keys::same_key(a.text, a.records, i, b.text, b.records, j)
}

// Whether they are the same but for their reals and their links.
pub fn same_but_links(a: Scene<'_>, m: usize, b: Scene<'_>, n: usize) -> bool
    ensures { result ≡ same_but_links a.entry.text.now (record_in a.entry.records.now m) b.entry.text.now (record_in b.entry.records.now n) }
{
    a.number(m, KIND) == b.number(n, KIND) && same_strings(a, m, b, n)
}

// Whether they are the same but for their reals.
pub fn same_but_reals(a: Scene<'_>, m: usize, b: Scene<'_>, n: usize) -> bool
    ensures { result ≡ same_content (content_in a.entry.text.now a.entry.records.now [] m) (content_in b.entry.text.now b.entry.records.now [] n) }
{
    same_but_links(a, m, b, n) && same_link(a, m, b, n, TARGET) && same_link(a, m, b, n, MODIFIER)
}
