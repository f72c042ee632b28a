// The records of a table grouped by type, as far as the order of those that are held allows. Tables may hold anything.
#![tactic(auto)]

ghost use Rattle.std.specs.Prelude.{◌≡◌, ◌+◌, min, length, replicate};
ghost use Rattle.scene.specs.Record.{filled, record_in};
ghost use Rattle.ties.specs.Ties.{held_rows};
ghost use Rattle.grouping.specs.Code.{Chose, Known, Looked, Waiting, type_in};
ghost use Rattle.grouping.specs.Grouped.{better, grouped, rank};

use table::MOST_RECORDS;

// The table `seen` has a place for each number from 0 on: at place k how many numbers, from 1 on, are known to hold record k back
// no more, and k itself once record k has its place in the order. Each goes on from where it stopped, so that the work is square.
const PLACES: usize = MOST_RECORDS + 1;

// How many numbers, from 1 on, do not hold record k back: those that are known, and on to the first that has no place and is held
// with k.
fn looked(records: &[u32], classes: &[usize], seen: &[usize], k: usize) -> usize
    requires { Waiting (held_rows records.now classes.now) seen.now k }
    ensures { Looked (held_rows records.now classes.now) seen.now k result }
{
    for known in seen[k]..k - 1 {
        let i = known + 1;
        if seen[i] == i {
            continue;
        }
        if ties::held(records, classes, i, k) {
            return known;
        }
    }
    k - 1
}

// The rank of a type.
fn rank(last: u32, kind: u32) -> u32
    ensures { result ≡ rank last kind }
{
    if kind == last {
        return 0;
    }
    kind
}

// Whether record k comes before the best so far.
fn is_better(records: &[u32], last: u32, best: usize, k: usize) -> bool
    ensures { result ≡ better (type_in records.now) last best k }
{
    if best == 0 {
        return true;
    }
    let new = rank(last, table::field(records, k, table::KIND));
    new < rank(last, table::field(records, best, table::KIND))
}

// The number that comes next.
fn next(records: &[u32], classes: &[usize], seen: &mut [usize], last: u32) -> usize
    requires { Known (held_rows records.now classes.now) seen.old }
    ensures { Chose (held_rows records.now classes.now) (type_in records.now) last seen.old seen.new result }
{
    let mut best = 0;
    for passed in 0..seen.len().saturating_sub(1) {
        let k = passed + 1;
        if seen[k] == k {
            continue;
        }
        let known = looked(records, classes, seen, k);
        seen[k] = known;
        if known + 1 < k {
            continue;
        }
        if !is_better(records, last, best, k) {
            continue;
        }
        best = k;
    }
    best
}

// Puts one number after the other into the order.
fn fill(records: &[u32], classes: &[usize], seen: &mut [usize], order: &mut [usize])
    requires { seen.old ≡ replicate (length order.old + 1) 0 }
    ensures { order.new ≡ grouped (held_rows records.now classes.now) (type_in records.now) (length order.old) }
{
    let mut last = 0;
    for entry in order.iter_mut() {
        let n = next(records, classes, seen, last);
        last = table::field(records, n, table::KIND);
        seen[n] = n;
        *entry = n;
    }
}

// The numbers of the records 1 to as many as the table takes, 1,024 at most, in their new order; zero behind them.
pub fn order(records: &[u32], classes: &[usize], order: &mut [usize])
    ensures { order.new ≡ filled 0 (length order.old) (grouped (held_rows records.now classes.now) (λ n. (record_in records.now n).type) (min 1024 (length order.old))) }
{
    let mut seen = [0usize; PLACES];
    let count = MOST_RECORDS.min(order.len());
    let end = count + 1;
    order.fill(0);
    fill(records, classes, &mut seen[..end], &mut order[..count]);
}
