// The open statement, handed on by value, and the steps of the words that begin it and of an alias's target.
#![tactic(auto)]

ghost use Rattle.std.specs.Prelude.{◌≡◌};
ghost use Rattle.scene.specs.Reason.{reason_number};
ghost use Rattle.statement.specs.Heads.{going_to, kind_step, modifier_step, name_step, target_step, with_name, with_target};
ghost use Rattle.statement.specs.States.{between, clipped, counted_in, is_idle, moved_to, opened, opening_of};
ghost use Rattle.statement.specs.Step as step;
ghost use Rattle.statement.specs.Step.{as_step};

use scene::{Mode, Reason, Refusal};

// What the next word is.
#[derive(Clone, Copy, PartialEq, Eq, Debug)]
pub enum Phase {
    Idle,
    Kind,
    Name,
    StringCount,
    FirstString,
    LaterString,
    IntegerCount,
    RealCount,
    Real,
    AliasName,
    Target,
}

// The record of the open statement, as far as it has been read. Its parts are in the order in which copies of it were measured to be
// fastest.
#[derive(Clone, Copy)]
pub struct Draft {
    pub name: u32,
    pub size: u32,
    pub kind: u32,
    pub string: u32,
    pub strings: u32,
    pub target: u32,
    pub real: u32,
    pub modifier: u32,
    pub reals: u32,
}

// Where reading has come to: records and reals stored, words of this kind left after the next, the open statement, entries of the
// index looked at.
#[derive(Clone, Copy)]
pub struct State {
    pub at: usize,
    pub count: usize,
    pub used: usize,
    pub left: u32,
    pub phase: Phase,
    pub draft: Draft,
    pub looked: u32,
}

// What a word's step looks at beside the word: its place and length, reals stored, the record that its name leads to, how many
// entries of the index were looked at for it, and the two reals before.
#[derive(Clone, Copy)]
pub struct Seen {
    pub place: usize,
    pub name: u32,
    pub size: u32,
    pub used: u32,
    pub found: u32,
    pub looked: u32,
    pub source: Draft,
    pub previous: f64,
    pub first: f64,
}

// What a word comes to: the statement goes on, with a real to store or none; it is complete, with a last real or none; or the
// text is refused. `Ended` is no word's: the text ends between two statements. The state stands first, so at one place in each.
// No `Result`: these are the steps of a state machine, and four of the six hand the state on.
#[derive(Clone, Copy)]
pub enum Step {
    Going(State),
    Real(State, f64),
    Last(State, f64),
    Complete(State),
    Refused(Refusal),
    Ended,
}

// What a byte opens that is no blank.
#[derive(Clone, Copy, PartialEq, Eq, Debug)]
pub enum Opening {
    Comment,
    Command,
    Word,
}

// A draft with nothing in it but the link to its modifier.
pub fn linked(modifier: u32) -> Draft
    ensures { result ≡ opened modifier }
{
    Draft {
        kind: 0,
        modifier,
        target: 0,
        name: 0,
        size: 0,
        string: 0,
        strings: 0,
        real: 0,
        reals: 0,
    }
}

// Between two statements.
pub fn between(at: usize, count: usize, used: usize, looked: u32) -> State
    ensures { result ≡ between at count used looked }
{
    State {
        at,
        count,
        used,
        left: 0,
        looked,
        phase: Phase::Idle,
        draft: linked(0),
    }
}

// A state with its place moved.
pub fn moved(s: State, at: usize) -> State
    ensures { result ≡ moved_to s at }
{
    State { at, ..s }
}

// A number that a record can hold: those past the largest count as the largest.
pub fn narrow(n: usize) -> u32
    ensures { result ≡ clipped n }
{
    u32::try_from(n).unwrap_or(u32::MAX)
}

// A state with more entries of the index looked at.
pub fn counted(s: State, looked: u32) -> State
    ensures { result ≡ counted_in s looked }
{
    State {
        looked: narrow(s.looked as usize + looked as usize),
        ..s
    }
}

// Whether no statement is open.
pub fn is_idle(phase: Phase) -> bool
    ensures { result ≡ is_idle phase }
{
    matches!(phase, Phase::Idle)
}

// Only where a statement may begin are `#` and `!` more than ordinary bytes.
pub fn opens(phase: Phase, b: u8) -> Opening
    ensures { result ≡ opening_of phase b }
{
    if !is_idle(phase) {
        return Opening::Word;
    }
    match b {
        b'#' => Opening::Comment,
        b'!' => Opening::Command,
        _ => Opening::Word,
    }
}

// The text is refused at a place.
pub fn refused(reason: Reason, place: usize) -> Step
    ensures { as_step result ≡ step.Refused (reason_number reason) place }
{
    Step::Refused(Refusal { reason, place })
}

// The statement goes on.
pub fn going(s: State, phase: Phase, left: u32, draft: Draft) -> Step
    ensures { as_step result ≡ going_to s phase left draft }
{
    Step::Going(State {
        left,
        phase,
        draft,
        ..s
    })
}

pub fn modifier(word: &[u8], room: usize, s: State, v: Seen) -> Step
    ensures { as_step result ≡ modifier_step word.now room s v }
{
    if s.count < room {
        if lexer::same(word, b"void") {
            return going(s, Phase::Kind, 0, linked(0));
        }
        if v.found == 0 {
            return refused(Reason::UnknownModifier, v.place);
        }
        return going(s, Phase::Kind, 0, linked(v.found));
    }
    refused(Reason::NoRoomForRecord, v.place)
}

pub fn kind(word: &[u8], mode: Mode, s: State, v: Seen) -> Step
    ensures { as_step result ≡ kind_step word.now mode s v }
{
    if lexer::same(word, b"alias") {
        return going(s, Phase::AliasName, 0, s.draft);
    }
    let t = type_names::type_number(word);
    if t == 0 {
        return refused(Reason::UnknownType, v.place);
    }
    if kinds::is_retired(mode, t) {
        return refused(Reason::RetiredType, v.place);
    }
    let mut d = s.draft;
    d.kind = t;
    going(s, Phase::Name, 0, d)
}

fn named(d: Draft, v: Seen) -> Draft
    ensures { result ≡ with_name d v.name v.size }
{
    Draft {
        name: v.name,
        size: v.size,
        ..d
    }
}

pub fn name(next: Phase, word: &[u8], s: State, v: Seen) -> Step
    ensures { as_step result ≡ name_step next word.now s v }
{
    if lexer::same(word, b"void") {
        return refused(Reason::NameIsVoid, v.place);
    }
    going(s, next, 0, named(s.draft, v))
}

// An alias has type, strings and reals of its target.
fn of_target(d: Draft, v: Seen) -> Draft
    ensures { result ≡ with_target d v }
{
    Draft {
        modifier: d.modifier,
        target: v.found,
        name: d.name,
        size: d.size,
        ..v.source
    }
}

pub fn target(s: State, v: Seen) -> Step
    ensures { as_step result ≡ target_step s v }
{
    if v.found == 0 {
        return refused(Reason::UnknownTarget, v.place);
    }
    Step::Complete(State {
        draft: of_target(s.draft, v),
        ..s
    })
}
