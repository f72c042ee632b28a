// The materials that a primitive may show, in a lent list. The tables may hold anything.
#![tactic(auto)]

ghost use Rattle.std.specs.Prelude.{◌≡◌, ◌+◌, ◌-◌, ◌≤◌, ◌<◌, length, set};
ghost use Rattle.graph.specs.Answers.{shown_in, those};
ghost use Rattle.graph.specs.Graph.{graph_of};
ghost use Rattle.shown.specs.Answer.{shown_of};
ghost use Rattle.shown.specs.Code.{Adds, Holds, Numbered, Walkable, marked_material};
ghost use Rattle.shown.specs.List.{every, fit_answer, fit_list, link_fits, pair_refusal, primitive_fits, shown_answer, shown_list, side_fits, table_fits};
ghost use Rattle.table.specs.Question.{refusal_number};
ghost use Rattle.table.specs.View.{view_of};

use kinds::MIXFUNC;
use scene::Reason;
use table::{KIND, MODIFIER, MOST_RECORDS};

// ---- whether a table can be walked

// Whether a link may lead to m: to none, or to no surface.
fn link_fits(records: &[u32], m: usize) -> bool
    ensures { result ≡ link_fits (view_of records.now) m }
{
    if m == 0 {
        return true;
    }
    !kinds::is_surface(table::field(records, m, KIND))
}

// Whether m may be a side of primitive n.
fn side_fits(records: &[u32], count: usize, n: usize, m: usize) -> bool
    ensures { result ≡ side_fits (view_of records.now) count n m }
{
    if m == 0 {
        return true;
    }
    if count < m {
        return false;
    }
    if table::field(records, n, KIND) != MIXFUNC {
        return false;
    }
    !kinds::is_surface(table::field(records, m, KIND))
}

// Whether primitive n is such as a reading leaves.
fn primitive_fits(records: &[u32], pairs: &[u32], count: usize, n: usize) -> bool
    ensures { result ≡ primitive_fits (graph_of records.now pairs.now) count n }
{
    let kind = table::field(records, n, KIND);
    if !((1 <= kind) & (kind <= MIXFUNC)) {
        return false;
    }
    let link = table::field(records, n, MODIFIER) as usize;
    if n <= link {
        return false;
    }
    link_fits(records, link)
        & side_fits(records, count, n, mixtures::side(pairs, n, 0))
        & side_fits(records, count, n, mixtures::side(pairs, n, 1))
}

fn all_fit(records: &[u32], pairs: &[u32], count: usize) -> bool
    ensures { result ≡ every (primitive_fits (graph_of records.now pairs.now) count) count }
{
    for n in 0..count {
        if !primitive_fits(records, pairs, count, n + 1) {
            return false;
        }
    }
    true
}

// Whether a table is such as a reading leaves, with no loop.
fn table_fits(records: &[u32], pairs: &[u32], marks: &mut [u32], count: usize) -> bool
    requires { length marks.old ≡ count + 1 }
    ensures marks_len_unchanged { length marks.new ≡ length marks.old }
    ensures value { result ≡ table_fits (graph_of records.now pairs.now) count }
{
    if !all_fit(records, pairs, count) {
        return false;
    }
    loops::first_loop(records, pairs, marks) == 0
}

// Whether a primitive can be asked about: the count is tested first, in both tables, then the number.
fn pair_refusal(records: &[u32], pairs: &[u32], count: usize, number: usize) -> Result<(), Reason>
    ensures { refusal_number result ≡ pair_refusal records.now pairs.now count number }
{
    if pairs.len() / 2 < count {
        return Err(Reason::BadTable);
    }
    table::number_refusal(records, count, number)
}

// ---- the list

// The bounds are tested by hand: what `get_mut` leaves of the list tells a proof its length only.
fn put(list: &mut [u32], at: usize, n: usize)
    requires { n ≤ 1024 }
    ensures { list.new ≡ set list.old at n }
{
    if at < list.len() {
        list[at] = n as u32;
    }
}

// One number more in the list where primitive n is a marked material; how many there are then.
fn add(records: &[u32], marks: &[u32], list: &mut [u32], n: usize, used: usize) -> usize
    requires n_bound { n ≤ 1024 }
    requires n_in_bounds { n < length marks.now }
    requires used_le_n { used ≤ n }
    ensures { Adds records.now marks.now list.old n used list.new result }
{
    if marks[n] == 0 {
        return used;
    }
    if kinds::is_material(table::field(records, n, KIND)) {
        put(list, used, n);
        return used + 1;
    }
    used
}

// The marked materials, smallest first, zeros after; how many there are.
fn materials(records: &[u32], marks: &[u32], list: &mut [u32]) -> usize
    requires marks_nonzero { 0 < length marks.now }
    requires marks_len_bound { length marks.now ≤ 1025 }
    ensures { Holds (those (marked_material records.now marks.now) (length marks.now - 1)) (length list.old) list.new result }
{
    list.fill(0);
    let mut used = 0;
    for n in 0..marks.len() - 1 {
        used = add(records, marks, list, n + 1, used);
    }
    used
}

// The materials that primitive n may show, on a table that can be walked; how many there are.
fn walked(records: &[u32], pairs: &[u32], marks: &mut [u32], n: usize, list: &mut [u32]) -> usize
    requires { Walkable (graph_of records.now pairs.now) (length marks.old) n }
    ensures { Holds (shown_in (graph_of records.now pairs.now) (length marks.old - 1) n) (length list.old) list.new result }
{
    mixtures::reach(records, pairs, marks, n, false);
    materials(records, marks, list)
}

// The list call on a table that has so many primitives: how many materials are listed.
fn list_of(
    records: &[u32],
    pairs: &[u32],
    marks: &mut [u32],
    count: usize,
    number: usize,
    list: &mut [u32],
) -> Result<usize, Reason>
    requires { Numbered count number (length marks.old) }
    ensures value { shown_of result ≡ fit_answer (graph_of records.now pairs.now) count number (length list.old) }
    ensures list_after { list.new ≡ fit_list (graph_of records.now pairs.now) count number (length list.old) }
{
    if !table_fits(records, pairs, marks, count) {
        list.fill(0);
        return Err(Reason::BadTable);
    }
    let total = walked(records, pairs, marks, number, list);
    if list.len() < total {
        list.fill(0);
        return Err(Reason::OutputTooSmall);
    }
    Ok(total)
}

// The materials that a primitive may show, smallest first, zeros after, and how many they are; a refusal zeroes the list.
pub fn list_shown(
    records: &[u32],
    pairs: &[u32],
    count: usize,
    number: usize,
    list: &mut [u32],
) -> Result<usize, Reason>
    ensures value { shown_of result ≡ shown_answer records.now pairs.now count number (length list.old) }
    ensures list_after { list.new ≡ shown_list records.now pairs.now count number (length list.old) }
{
    match pair_refusal(records, pairs, count, number) {
        Ok(()) => {
            let mut marks = [0u32; MOST_RECORDS + 1];
            list_of(records, pairs, &mut marks[..count + 1], count, number, list)
        }
        Err(reason) => {
            list.fill(0);
            Err(reason)
        }
    }
}
