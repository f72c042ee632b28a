// The sides of mixtures. Their names may be defined below them, so they are looked up when all of a text is read, and stored in a lent
// table of pairs.
#![tactic(auto)]

ghost use Rattle.std.specs.Prelude.{◌≡◌};
ghost use Rattle.resolver.specs.Code.{PutsPair, Resolves, Sides, side_at};

use kinds::MIXFUNC;
use table::{KIND, STRING};

// No mixture among the records, or each side known, or the place of the first that is not.
// An enum of its own, and a flag in `Side`: as a `Result` and an `Option` they were tried, and the reading by an index missed its bar of speed.
#[derive(Clone, Copy)]
pub enum Resolved {
    Plain,
    Known,
    Unknown(usize),
}

// What a side's name leads to, 0 for `void`, and whether it is known.
#[derive(Clone, Copy)]
pub struct Side {
    pub number: u32,
    pub known: bool,
}

fn wide(n: u32) -> usize
    ensures { result ≡ n }
{
    n as usize
}

// The side that the word at or after a place names. The search is among all records, so it finds the last of that name.
fn side_at(text: &[u8], records: &[u32], index: &[u32], count: usize, at: usize) -> Side
    ensures { result ≡ side_at text.now records.now index.now count at }
{
    let word = lexer::word_bytes(text, at);
    if lexer::same(word, b"void") {
        return Side {
            number: 0,
            known: true,
        };
    }
    let found = index::search(text, records, index, count, word);
    let number = found.number;
    Side {
        number: statement::narrow(number),
        known: number != 0,
    }
}

// Stores the pair of primitive n, where the table has room for it.
fn put_pair(pairs: &mut [u32], n: usize, foreground: u32, background: u32)
    ensures { PutsPair pairs.old n foreground background pairs.new }
{
    if n == 0 {
        return;
    }
    if pairs.len() / 2 < n {
        return;
    }
    let at = (n - 1) * 2;
    pairs[at] = foreground;
    pairs[at + 1] = background;
}

// Both sides of mixture n.
fn resolve_mixture(
    text: &[u8],
    records: &[u32],
    index: &[u32],
    pairs: &mut [u32],
    count: usize,
    n: usize,
) -> Resolved
    ensures { Sides text.now records.now index.now pairs.old count n result pairs.new }
{
    let at = wide(table::field(records, n, STRING));
    let foreground = side_at(text, records, index, count, at);
    if !foreground.known {
        return Resolved::Unknown(at);
    }
    let next = lexer::past_word(text, at);
    let background = side_at(text, records, index, count, next);
    if !background.known {
        let word = lexer::next_word(text, next);
        return Resolved::Unknown(word.place);
    }
    put_pair(pairs, n, foreground.number, background.number);
    Resolved::Known
}

// The sides of every mixture among the first `count` records, an alias of one being one. After an unknown side the pairs may hold
// anything.
pub fn resolve(
    text: &[u8],
    records: &[u32],
    index: &[u32],
    pairs: &mut [u32],
    count: usize,
) -> Resolved
    ensures { Resolves text.now records.now index.now pairs.old count result pairs.new }
{
    // Counted by hand for the same reason.
    let mut end = Resolved::Plain;
    let mut n = 0;
    while n < count {
        n += 1;
        if table::field(records, n, KIND) == MIXFUNC {
            end = resolve_mixture(text, records, index, pairs, count, n);
            if let Resolved::Unknown(_) = end {
                return end;
            }
        }
    }
    end
}
