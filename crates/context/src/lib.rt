// What a step may look at beside its word: the record that a name leads to, and the two reals before.
#![tactic(auto)]

ghost use Rattle.std.specs.Prelude.{◌≡◌};
ghost use Rattle.context.specs.Seen.{back, draft_in, is_looked_up, looked_for, real_before, seen_in};
ghost use Rattle.index.specs.Searches.{sought};

use index::Found;
use statement::{Draft, Phase, Seen, State, linked, narrow};
use table::{KIND, REAL, REALS, STRING, STRINGS};

// Only a modifier other than `void` and an alias target are looked up.
fn is_looked_up(phase: Phase, word: &[u8]) -> bool
    ensures { result ≡ is_looked_up phase word.now }
{
    match phase {
        Phase::Idle => !lexer::same(word, b"void"),
        Phase::Target => true,
        _ => false,
    }
}

fn look_up(
    text: &[u8],
    records: &[u32],
    index: &[u32],
    count: usize,
    phase: Phase,
    word: &[u8],
) -> Found
    ensures number_value { result.number ≡ looked_for phase word.now (sought text.now records.now index.now count word.now).number }
    ensures looked_value { result.looked ≡ looked_for phase word.now (sought text.now records.now index.now count word.now).looked }
{
    if is_looked_up(phase, word) {
        return index::search(text, records, index, count, word);
    }
    Found {
        entry: 0,
        number: 0,
        looked: 0,
    }
}

// Type, strings and reals of a record by its number.
pub fn source_of(records: &[u32], number: usize) -> Draft
    ensures { result ≡ draft_in records.now number }
{
    if number == 0 {
        return linked(0);
    }
    Draft {
        kind: table::field(records, number, KIND),
        string: table::field(records, number, STRING),
        strings: table::field(records, number, STRINGS),
        real: table::field(records, number, REAL),
        reals: table::field(records, number, REALS),
        ..linked(0)
    }
}

// The real that stands `j` before the next one.
pub fn back(reals: &[f64], used: usize, j: usize) -> f64
    ensures { result ≡ back reals.now used j }
{
    if j <= used {
        return table::real_at(reals, used - j);
    }
    0.0
}

// The same where the word is a real: no other step looks at the reals before.
fn real_before(phase: Phase, reals: &[f64], used: usize, j: usize) -> f64
    ensures { result ≡ real_before phase reals.now used j }
{
    match phase {
        Phase::Real => back(reals, used, j),
        _ => 0.0,
    }
}

// What a step may look at beside the word, which stands at `place`.
pub fn look(
    text: &[u8],
    records: &[u32],
    reals: &[f64],
    index: &[u32],
    s: State,
    place: usize,
    word: &[u8],
) -> Seen
    ensures { result ≡ seen_in text.now records.now reals.now index.now s place word.now }
{
    let phase = s.phase;
    let found = look_up(text, records, index, s.count, phase, word);
    let number = found.number;
    Seen {
        place,
        name: narrow(place),
        size: narrow(word.len()),
        used: narrow(s.used),
        found: narrow(number),
        looked: found.looked,
        source: source_of(records, number),
        previous: real_before(phase, reals, s.used, 1),
        first: real_before(phase, reals, s.used, 2),
    }
}
