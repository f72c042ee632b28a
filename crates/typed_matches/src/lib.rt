// Whether a typed scene holds an order of two hands' records and no more, by the matches of both hands' records in it. Both hands are
// numbered together, right's records first, then left's.
#![tactic(auto)]

ghost use Rattle.std.specs.Prelude.{◌≡◌, length};
ghost use Rattle.arranging.specs.Both.{either};
ghost use Rattle.join_meaning.specs.Written.{all_equal};
ghost use Rattle.table.specs.Number.{number_in};
ghost use Rattle.typed_matches.specs.Held.{all_held};

use table::{WIDTH, number_at};

// The match of number n.
fn match_at(right_matches: &[usize], left_matches: &[usize], n: usize) -> usize
    ensures { result ≡ either (length right_matches.now) (number_in right_matches.now) (number_in left_matches.now) n }
{
    let split = right_matches.len();
    if n <= split {
        return number_at(right_matches, n);
    }
    number_at(left_matches, n - split)
}

// Whether each number of an order has an equal match.
fn all_equal(right_matches: &[usize], left_matches: &[usize], order: &[usize]) -> bool
    ensures { result ≡ all_equal right_matches.now left_matches.now order.now }
{
    order.iter().all(|n| picking::is_equal(match_at(right_matches, left_matches, *n)))
}

// Whether the scene holds these and no more: each name once, as many, and each defined alike.
pub fn all_held(
    right_matches: &[usize],
    left_matches: &[usize],
    order: &[usize],
    typed: &[u8],
    typed_records: &[u32],
) -> bool
    ensures { result ≡ all_held right_matches.now left_matches.now order.now typed.now typed_records.now }
{
    if !name_index::names_once(typed, typed_records) {
        return false;
    }
    if order.len() != typed_records.len() / WIDTH {
        return false;
    }
    all_equal(right_matches, left_matches, order)
}
