// Names and keys, over a text and a table of records that may hold anything. A table has as many records as its length gives
// whole ones, and number 0 stands for no primitive.
#![tactic(auto)]

ghost use Rattle.std.specs.Prelude.{cond, ◌≡◌, [], ◌/◌, suc, leb, length};
ghost use Rattle.laws.specs.Bytes.{same};
ghost use Rattle.scene.specs.Record.{name_in, width};
ghost use Rattle.keys.specs.Key.{found, key_of, lower, nth_of, same_key, times};
ghost use Rattle.keys.specs.Rows.{rows_in, scene_rows};
ghost use Rattle.keys.specs.Scan.{better, least_in};

use table::WIDTH;

// Whether name a comes before name b: the first byte that differs decides, and a prefix comes first.
#[tactic(auto, using(crate::proofs::LowerLaws::lower_is))]
pub fn lower(a: &[u8], b: &[u8]) -> bool
    ensures { result ≡ lower a.now b.now }
{
    a < b
}

// 1 where record n has that name, else 0.
fn hit(text: &[u8], records: &[u32], n: usize, name: &[u8]) -> usize
    ensures { result ≡ cond (same name.now (name_in text.now records.now n)) 1 0 }
{
    if lexer::same(name, table::name_of(text, records, n)) {
        return 1;
    }
    0
}

// How many of the first n have that name.
pub fn times(text: &[u8], records: &[u32], n: usize, name: &[u8]) -> usize
    ensures { result ≡ times name.now (rows_in text.now records.now [] n) }
{
    let mut seen = 0;
    for k in 0..n {
        seen += hit(text, records, k + 1, name);
    }
    seen
}

// The number of a key: of the primitive that has a name and so many of that name above it; 0 where there is none. The count
// above, not nth, is what the caller gives: one more than it may be past the largest number.
pub fn number_of_key(text: &[u8], records: &[u32], name: &[u8], above: usize) -> usize
    ensures { result ≡ length (found (nth_of name.now (suc above)) (scene_rows text.now records.now [])) }
{
    let mut seen = 0;
    for k in 0..records.len() / WIDTH {
        seen += hit(text, records, k + 1, name);
        if above < seen {
            return k + 1;
        }
    }
    0
}

// The better of two for the least name above a name: the best so far, which may be none, and number n.
fn better(text: &[u8], records: &[u32], name: &[u8], best: usize, n: usize) -> usize
    ensures { result ≡ better text.now records.now name.now best n }
{
    let other = table::name_of(text, records, n);
    if lower(name, other) {
        if best == 0 {
            return n;
        }
        if lower(other, table::name_of(text, records, best)) {
            return n;
        }
        return best;
    }
    best
}

// The number of the first one with the least name above a name; 0 where there is none.
pub fn least_above(text: &[u8], records: &[u32], name: &[u8]) -> usize
    ensures { result ≡ least_in text.now records.now name.now (length records.now / width) }
{
    let mut best = 0;
    for k in 0..records.len() / WIDTH {
        best = better(text, records, name, best, k + 1);
    }
    best
}

// A number above the count leads to no primitive.
fn within(records: &[u32], n: usize) -> usize
    ensures { result ≡ cond (leb n (length records.now / width)) n 0 }
{
    if n <= records.len() / WIDTH {
        return n;
    }
    0
}

// The name in the key of number n.
pub fn key_name<'a>(text: &'a [u8], records: &[u32], n: usize) -> &'a [u8]
    ensures { result.now ≡ (key_of (scene_rows text.now records.now []) n).name }
{
    let k = within(records, n);
    if k == 0 {
        return lexer::part(text, 0, 0);
    }
    table::name_of(text, records, k)
}

// Which definition of its name number n is, from 1; 0 for none.
pub fn key_nth(text: &[u8], records: &[u32], n: usize) -> usize
    ensures { result ≡ (key_of (scene_rows text.now records.now []) n).nth }
{
    let k = within(records, n);
    if k == 0 {
        return 0;
    }
    times(text, records, k - 1, table::name_of(text, records, k)) + 1
}

// Whether number m of one scene and number n of another have the same key.
pub fn same_key(
    a: &[u8],
    a_records: &[u32],
    m: usize,
    b: &[u8],
    b_records: &[u32],
    n: usize,
) -> bool
    ensures { result ≡ same_key (key_of (scene_rows a.now a_records.now []) m) (key_of (scene_rows b.now b_records.now []) n) }
{
    if key_nth(a, a_records, m) != key_nth(b, b_records, n) {
        return false;
    }
    lexer::same(key_name(a, a_records, m), key_name(b, b_records, n))
}
