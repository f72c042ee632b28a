// What a count, a string or a real of a primitive comes to: pure steps on values, which touch no lent memory.
#![tactic(auto)]

ghost use Rattle.std.specs.Prelude.{◌≡◌, ◌+◌, ◌-◌, leb};
ghost use Rattle.arguments.specs.Steps.{integer_count_step, real_count_step, real_step, stored_in, string_count_step, string_step, with_string};
ghost use Rattle.statement.specs.Step.{as_step};

use numeral::NumeralError;
use scene::Reason;
use statement::{Draft, Phase, Seen, State, Step, going, refused};

pub fn string_count(word: &[u8], s: State, v: Seen) -> Step
    ensures { as_step result ≡ string_count_step word.now s v }
{
    match numeral::count_of(word) {
        None => refused(Reason::BadCount, v.place),
        Some(n) => {
            let mut d = s.draft;
            if kinds::strings_allowed(d.kind, n) {
                d.strings = n;
                if n == 0 {
                    return going(s, Phase::IntegerCount, 0, d);
                }
                return going(s, Phase::FirstString, n - 1, d);
            }
            refused(Reason::BadCount, v.place)
        }
    }
}

fn string(s: State, d: Draft) -> Step
    ensures { as_step result ≡ string_step s d }
{
    if s.left == 0 {
        return going(s, Phase::IntegerCount, 0, d);
    }
    going(s, Phase::LaterString, s.left - 1, d)
}

pub fn first_string(s: State, v: Seen) -> Step
    ensures { as_step result ≡ string_step s (with_string s.draft v.name) }
{
    let mut d = s.draft;
    d.string = v.name;
    string(s, d)
}

pub fn later_string(s: State) -> Step
    ensures { as_step result ≡ string_step s s.draft }
{
    string(s, s.draft)
}

pub fn integer_count(word: &[u8], s: State, v: Seen) -> Step
    ensures { as_step result ≡ integer_count_step word.now s v }
{
    match numeral::count_of(word) {
        None => refused(Reason::BadCount, v.place),
        Some(n) => {
            if n == 0 {
                return going(s, Phase::RealCount, 0, s.draft);
            }
            refused(Reason::BadCount, v.place)
        }
    }
}

// Whether n more reals fit a room of which some are used.
pub fn fits(used: usize, n: u32, room: usize) -> bool
    ensures { result ≡ leb (used + n) room }
{
    used.checked_add(n as usize).is_some_and(|sum| sum <= room)
}

pub fn real_count(word: &[u8], room: usize, s: State, v: Seen) -> Step
    ensures { as_step result ≡ real_count_step word.now room s v }
{
    match numeral::count_of(word) {
        None => refused(Reason::BadCount, v.place),
        Some(n) => {
            let mut d = s.draft;
            if kinds::reals_allowed(d.kind, n) {
                if fits(s.used, n, room) {
                    if n == 0 {
                        return Step::Complete(s);
                    }
                    d.real = v.used;
                    d.reals = n;
                    return going(s, Phase::Real, n - 1, d);
                }
                return refused(Reason::NoRoomForReals, v.place);
            }
            refused(Reason::BadCount, v.place)
        }
    }
}

// The state once so many reals are stored, with so many left after the next.
fn stored(s: State, used: usize, left: u32) -> State
    ensures { result ≡ stored_in s used left }
{
    State { used, left, ..s }
}

pub fn less(a: u32, b: u32) -> u32
    ensures { result ≡ a - b }
{
    a.saturating_sub(b)
}

pub fn real(word: &[u8], room: usize, s: State, v: Seen) -> Step
    ensures { as_step result ≡ real_step word.now room s v }
{
    match numeral::numeral_of(word) {
        Err(NumeralError::Malformed) => refused(Reason::BadNumeral, v.place),
        Err(NumeralError::TooLarge) => refused(Reason::NumeralTooLarge, v.place),
        Ok(x) => {
            let d = s.draft;
            let nth = less(d.reals, s.left);
            if kinds::breaches(d.kind, nth, x, v.previous, v.first) {
                return refused(Reason::BreaksHouseRule, v.place);
            }
            if room <= s.used {
                return refused(Reason::NoRoomForReals, v.place);
            }
            if s.left == 0 {
                return Step::Last(stored(s, s.used + 1, 0), x);
            }
            Step::Real(stored(s, s.used + 1, s.left - 1), x)
        }
    }
}
