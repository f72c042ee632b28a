// The records of a scene in the order of their names: a merge sort between two lent tables, each run twice as long as those it
// is merged from. The text and the records may hold anything.
#![tactic(auto)]

ghost use Rattle.std.specs.Prelude.{◌≡◌, ◌+◌, ◌≤◌, drop, length, replicate};
ghost use Rattle.scene.specs.Record.{filled};
ghost use Rattle.name_order.specs.Merge.{Equal, Numbered, Round, Runs, merge, right_first};
ghost use Rattle.name_order.specs.Sort.{earlier, room, sorted};

use table::{MOST_RECORDS, WIDTH};

// The numbers from 1 on.
fn number(order: &mut [u32])
    requires { length order.old ≤ 1024 }
    ensures { Numbered order.new }
{
    for (i, entry) in order.iter_mut().enumerate() {
        *entry = (i + 1) as u32;
    }
}

// Whether record i's name comes before record j's.
fn earlier(text: &[u8], records: &[u32], i: u32, j: u32) -> bool
    ensures { result ≡ earlier text.now records.now i j }
{
    keys::lower(
        table::name_of(text, records, i as usize),
        table::name_of(text, records, j as usize),
    )
}

// Whether entry j of the right run goes before entry i of the left run: where names are the same the left one goes first.
fn right_first(
    text: &[u8],
    records: &[u32],
    left: &[u32],
    i: usize,
    right: &[u32],
    j: usize,
) -> bool
    ensures { result ≡ right_first (earlier text.now records.now) (drop i left.now) (drop j right.now) }
{
    if right.len() <= j {
        return false;
    }
    if left.len() <= i {
        return true;
    }
    earlier(text, records, right[j], left[i])
}

// Merges two runs.
fn merge(text: &[u8], records: &[u32], left: &[u32], right: &[u32], out: &mut [u32])
    requires { length out.old ≡ length left.now + length right.now }
    ensures { out.new ≡ merge (earlier text.now records.now) left.now right.now }
{
    // Two cursors by hand: each turn moves one of them, by which run the next entry comes from.
    let mut i = 0;
    let mut j = 0;
    for entry in out.iter_mut() {
        if right_first(text, records, left, i, right, j) {
            *entry = right[j];
            j += 1;
            continue;
        }
        *entry = left[i];
        i += 1;
    }
}

// Merges the runs of a width in pairs.
fn merge_runs(text: &[u8], records: &[u32], from: &[u32], to: &mut [u32], width: usize)
    requires { Round (earlier text.now records.now) from.now (length to.old) width }
    ensures { Runs (earlier text.now records.now) (width + width) to.new }
{
    // Stepped by hand: a turn moves on by two runs, not by one index.
    let mut at = 0;
    while at < from.len() {
        let middle = (at + width).min(from.len());
        let end = (middle + width).min(from.len());
        merge(
            text,
            records,
            &from[at..middle],
            &from[middle..end],
            &mut to[at..end],
        );
        at += width + width;
    }
}

// Two rounds to a turn: into scratch and back.
fn sort(text: &[u8], records: &[u32], order: &mut [u32], scratch: &mut [u32])
    requires { Equal (length order.old) (length scratch.old) }
    ensures { order.new ≡ sorted (earlier text.now records.now) (length order.old) }
{
    number(order);
    // No index is counted: the width of the runs grows fourfold with each turn.
    let mut width = 1;
    while width < order.len() {
        merge_runs(text, records, order, scratch, width);
        let twice = width + width;
        merge_runs(text, records, scratch, order, twice);
        width = twice + twice;
    }
}

// The numbers of the records in the order of their names, and of their numbers where names are the same.
pub fn order(text: &[u8], records: &[u32], order: &mut [u32], scratch: &mut [u32])
    ensures order_after { order.new ≡ filled 0 (length order.old) (sorted (earlier text.now records.now) (room (length records.now) (length order.old) (length scratch.old))) }
    ensures scratch_after { scratch.new ≡ replicate (length scratch.old) 0 }
{
    let whole = MOST_RECORDS.min(records.len() / WIDTH);
    let count = whole.min(order.len().min(scratch.len()));
    order.fill(0);
    sort(text, records, &mut order[..count], &mut scratch[..count]);
    scratch.fill(0);
}
