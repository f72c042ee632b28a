// The definitions of one scene beside those of another: for each, where its name stands there and whether it is defined alike. Over
// texts and tables that may hold anything.
#![tactic(auto)]

ghost use Rattle.std.specs.Prelude.{◌≡◌, ◌≤◌, length};
ghost use Rattle.index.specs.Index.{index_by};
ghost use Rattle.name_index.specs.Names.{count_in, number_of_name, rows};
ghost use Rattle.scene.specs.Record.{field_in, name_in};
ghost use Rattle.tabled.specs.Tabled.{tabled};
ghost use Rattle.matching.specs.Matching.{match_of, match_with, same_link, same_row};

use content::Scene;
use table::{MODIFIER, TARGET};

// Whether link k of a record in each scene leads to the same name, or in both to none.
fn same_link(a: Scene<'_>, m: usize, b: Scene<'_>, n: usize, k: usize) -> bool
    ensures { result ≡ same_link a.entry.text.now a.entry.records.now (field_in a.entry.records.now m k) b.entry.text.now b.entry.records.now (field_in b.entry.records.now n k) }
{
    let i = a.number(m, k);
    let j = b.number(n, k);
    if i == 0 {
        return j == 0;
    }
    if j == 0 {
        return false;
    }
    lexer::same(
        table::name_of(a.text, a.records, i),
        table::name_of(b.text, b.records, j),
    )
}

// Whether record m of one scene and record n of another are equal definitions: modifier and target by name, and unless it is an
// alias type, strings and reals.
fn same_row(a: Scene<'_>, m: usize, b: Scene<'_>, n: usize) -> bool
    ensures { result ≡ same_row a.entry.text.now a.entry.records.now a.entry.reals.now m b.entry.text.now b.entry.records.now b.entry.reals.now n }
{
    if !same_link(a, m, b, n, MODIFIER) {
        return false;
    }
    if !same_link(a, m, b, n, TARGET) {
        return false;
    }
    if a.number(m, TARGET) != 0 {
        return true;
    }
    if !content::same_but_links(a, m, b, n) {
        return false;
    }
    content::same_reals(a, m, b, n)
}

// Where the name of record m of one scene stands in another, whose names the index has.
fn number_there(a: Scene<'_>, m: usize, b: Scene<'_>, index: &[u32]) -> usize
    requires { index.now ≡ index_by (rows b.text.now b.records.now) (count_in b.records.now) }
    ensures { result ≡ number_of_name b.entry.text.now b.entry.records.now (name_in a.entry.text.now a.entry.records.now m) }
{
    let name = table::name_of(a.text, a.records, m);
    index::search(b.text, b.records, index, 0, name).number
}

// The match of record m of one scene with record n of another, 0 for none. One number, as the definition `match_with` and the theorems
// of joins have it: twice the record's, and one more where both are equal.
fn match_with(a: Scene<'_>, m: usize, b: Scene<'_>, n: usize) -> usize
    requires { n ≤ 1024 }
    ensures { result ≡ match_with (same_row a.entry.text.now a.entry.records.now a.entry.reals.now m b.entry.text.now b.entry.records.now b.entry.reals.now n) n }
{
    if n == 0 {
        return 0;
    }
    if same_row(a, m, b, n) {
        return n + n + 1;
    }
    n + n
}

// The matches of the first records of one scene, as many as the table takes, in another.
pub fn match_all(a: Scene<'_>, b: Scene<'_>, matches: &mut [usize])
    ensures { matches.new ≡ tabled (match_of a.entry.text.now a.entry.records.now a.entry.reals.now b.entry.text.now b.entry.records.now b.entry.reals.now) (length matches.old) }
{
    let index = name_index::index_names(b.text, b.records);
    for (i, found) in matches.iter_mut().enumerate() {
        let n = number_there(a, i + 1, b, &index);
        *found = match_with(a, i + 1, b, n);
    }
}
