// Whether the order of two entries mattered. Tables may hold anything.
#![tactic(auto)]

ghost use Rattle.std.specs.Prelude.{◌≡◌, ◌+◌, ◌<◌, drop, get_or, length};
ghost use Rattle.holding.specs.Shortest.{first_link, first_on, nearest};
ghost use Rattle.ties.specs.Ties.{bound_rows};
ghost use Rattle.precedence.specs.Answer.{all_fit, between, binder, by_link, order_of, refusal_of, row_fits};
ghost use Rattle.precedence.specs.Answered.{held_of, order_answer};
ghost use Rattle.precedence.specs.Code.{Filled, Ordered};
ghost use Rattle.table.specs.Question.{refusal_number};

use scene::Reason;
use table::MOST_RECORDS;

// A table of chains has a place for each number from 0 to the last entry's: how many entries a shortest chain from there to the last
// has, itself counted, and 0 for none.
const PLACES: usize = MOST_RECORDS + 1;

// A chain of entries that holds an order: the entry that it goes to first, and the one whose name binds.
#[derive(Clone, Copy, PartialEq, Eq, Debug)]
pub struct Held {
    pub by: usize,
    pub named: usize,
}

// Whether a record's links lead to records above it, and its name stands in the text.
fn row_fits(text: &[u8], records: &[u32], n: usize) -> bool
    ensures { result ≡ row_fits text.now records.now n }
{
    let modifier = table::field(records, n, table::MODIFIER) as usize;
    let target = table::field(records, n, table::TARGET) as usize;
    let place = table::field(records, n, table::NAME) as usize;
    let len = table::field(records, n, table::NAME_LENGTH) as usize;
    (modifier < n) & (target < n) & (1 <= len) & (place + len <= text.len())
}

fn all_fit(text: &[u8], records: &[u32], count: usize) -> bool
    ensures { result ≡ all_fit text.now records.now count }
{
    for n in 0..count {
        if !row_fits(text, records, n + 1) {
            return false;
        }
    }
    true
}

// Whether two entries can be asked about.
fn refusal(
    text: &[u8],
    records: &[u32],
    count: usize,
    first: usize,
    second: usize,
) -> Result<(), Reason>
    ensures { refusal_number result ≡ refusal_of text.now records.now count first second }
{
    table::number_refusal(records, count, first)?;
    table::number_refusal(records, count, second)?;
    if first == second {
        return Err(Reason::NoSuchPrimitive);
    }
    if all_fit(text, records, count) {
        return Ok(());
    }
    Err(Reason::BadTable)
}

// Of the entries below number k that it is bound to, the least that a chain has; 0 for none.
fn nearest(records: &[u32], classes: &[usize], lengths: &[usize], k: usize) -> usize
    requires { k < length lengths.now }
    ensures { result ≡ nearest (bound_rows records.now classes.now) k (k + 1) (drop (k + 1) lengths.now) 0 }
{
    let mut best = 0;
    for j in k + 1..lengths.len() {
        let d = lengths[j];
        let nearer = (d != 0) & ((best == 0) | (d < best));
        if !nearer {
            continue;
        }
        if !ties::bound(records, classes, k, j) {
            continue;
        }
        best = d;
    }
    best
}

// Fills a table of chains from its last entry back to the first.
fn fill(records: &[u32], classes: &[usize], lengths: &mut [usize], first: usize)
    requires { first < length lengths.old }
    ensures { Filled (bound_rows records.now classes.now) lengths.new first }
{
    let last = lengths.len() - 1;
    lengths[last] = 1;
    for k in (first..last).rev() {
        let behind = nearest(records, classes, lengths, k);
        if behind == 0 {
            lengths[k] = 0;
            continue;
        }
        lengths[k] = behind + 1;
    }
}

// Where a shortest chain from the first entry to the last goes first; 0 where there is none.
fn first_link(records: &[u32], classes: &[usize], lengths: &[usize], first: usize) -> usize
    requires { first < length lengths.now }
    ensures { result ≡ first_on (bound_rows records.now classes.now) first (get_or lengths.now first 0) (first + 1) (drop (first + 1) lengths.now) }
{
    let long = lengths[first];
    if long == 0 {
        return 0;
    }
    for j in first + 1..lengths.len() {
        if lengths[j] != long - 1 {
            continue;
        }
        if ties::bound(records, classes, first, j) {
            return j;
        }
    }
    0
}

// The number of the entry whose name binds number n to number k.
fn binder(records: &[u32], classes: &[usize], n: usize, k: usize) -> usize
    ensures { result ≡ binder records.now classes.now n k }
{
    if ties::gives_to(records, classes, n, k) {
        return n;
    }
    k
}

// What holds the last of two entries to the first, if anything does.
fn linked(records: &[u32], classes: &[usize], first: usize, last: usize) -> Option<Held>
    requires { Ordered 1024 first last }
    ensures { held_of result ≡ by_link records.now classes.now first (first_link (bound_rows records.now classes.now) first last) }
{
    let mut lengths = [0usize; PLACES];
    let end = last + 1;
    fill(records, classes, &mut lengths[..end], first);
    let by = first_link(records, classes, &lengths[..end], first);
    if by == 0 {
        return None;
    }
    Some(Held {
        by,
        named: binder(records, classes, first, by),
    })
}

// The same, with the classes of as many records as there are.
fn between(text: &[u8], records: &[u32], count: usize, first: usize, last: usize) -> Option<Held>
    requires { Ordered count first last }
    ensures { held_of result ≡ between text.now records.now count first last }
{
    let mut classes = [0usize; MOST_RECORDS];
    ties::classes(text, records, &mut classes[..count]);
    linked(records, &classes[..count], first, last)
}

// Whether the order of two entries mattered, whichever is named first: what holds it, if anything does.
pub fn mattered(
    text: &[u8],
    records: &[u32],
    count: usize,
    first: usize,
    second: usize,
) -> Result<Option<Held>, Reason>
    ensures { order_answer result ≡ order_of text.now records.now count first second }
{
    refusal(text, records, count, first, second)?;
    let upper = first.min(second);
    let lower = first.max(second);
    Ok(between(text, records, count, upper, lower))
}
