// Which records of a table are bound by names, and which keep their order when a scene is sorted. Tables may hold anything.
#![tactic(auto)]

ghost use Rattle.std.specs.Prelude.{◌≡◌, length};
ghost use Rattle.ties.specs.Ties.{bound_rows, class_of, classes_to, gives_in, gives_to, held_rows, refers_in};

// The number of the first record that has the name of record n: it stands for that name.
fn class_of(text: &[u8], records: &[u32], n: usize) -> usize
    ensures { result ≡ class_of text.now records.now n }
{
    let name = table::name_of(text, records, n);
    for m in 0..n {
        if lexer::same(table::name_of(text, records, m + 1), name) {
            return m + 1;
        }
    }
    0
}

// The classes of the first records, as many as the table takes.
pub fn classes(text: &[u8], records: &[u32], classes: &mut [usize])
    ensures { classes.new ≡ classes_to text.now records.now (length classes.old) }
{
    for (i, class) in classes.iter_mut().enumerate() {
        *class = class_of(text, records, i + 1);
    }
}

// Whether record n gives its name.
fn gives(records: &[u32], n: usize) -> bool
    ensures { result ≡ gives_in records.now n }
{
    kinds::is_modifier(table::field(records, n, table::KIND))
}

// Whether record n refers to the names of a class.
fn refers(records: &[u32], classes: &[usize], n: usize, class: usize) -> bool
    ensures { result ≡ refers_in records.now classes.now n class }
{
    let modifier = table::field(records, n, table::MODIFIER) as usize;
    let target = table::field(records, n, table::TARGET) as usize;
    (table::number_at(classes, modifier) == class) | (table::number_at(classes, target) == class)
}

// Whether record i gives a name that record j gives or refers to.
pub fn gives_to(records: &[u32], classes: &[usize], i: usize, j: usize) -> bool
    ensures { result ≡ gives_to records.now classes.now i j }
{
    if !gives(records, i) {
        return false;
    }
    let class = table::number_at(classes, i);
    let given = gives(records, j) & (class == table::number_at(classes, j));
    given | refers(records, classes, j, class)
}

// Whether of records i and j one gives a name that the other gives or refers to.
pub fn bound(records: &[u32], classes: &[usize], i: usize, j: usize) -> bool
    ensures { result ≡ bound_rows records.now classes.now i j }
{
    let first = gives_to(records, classes, i, j);
    first | gives_to(records, classes, j, i)
}

// Whether records i and j keep their order when a scene is sorted.
pub fn held(records: &[u32], classes: &[usize], i: usize, j: usize) -> bool
    ensures { result ≡ held_rows records.now classes.now i j }
{
    let one_name = table::number_at(classes, i) == table::number_at(classes, j);
    one_name | bound(records, classes, i, j)
}
