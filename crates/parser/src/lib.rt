// What stands next in a scene text, and what it does to the open statement: steps on values, which only look at the tables.
#![tactic(auto)]

ghost use Rattle.std.specs.Prelude.{◌≡◌};
ghost use Rattle.lexer.specs.Word.{checked_of};
ghost use Rattle.parser.specs.Steps.{Scanned, end_of, next_step, step_of, word_of, word_step};
ghost use Rattle.statement.specs.Step.{as_step};

use lexer::Checked;
use scene::{Reason, Settings};
use statement::{Opening, Phase, Seen, State, Step};

// What the text's end comes to.
fn at_end(phase: Phase, len: usize) -> Step
    ensures { as_step result ≡ end_of phase len }
{
    if statement::is_idle(phase) {
        return Step::Ended;
    }
    statement::refused(Reason::EndsInStatement, len)
}

// What a good word comes to in the phase that the state is in.
fn advance(word: &[u8], settings: Settings, s: State, v: Seen) -> Step
    ensures { as_step result ≡ step_of s.phase word.now settings s v }
{
    match s.phase {
        Phase::Idle => statement::modifier(word, settings.records, s, v),
        Phase::Kind => statement::kind(word, settings.mode, s, v),
        Phase::Name => statement::name(Phase::StringCount, word, s, v),
        Phase::StringCount => arguments::string_count(word, s, v),
        Phase::FirstString => arguments::first_string(s, v),
        Phase::LaterString => arguments::later_string(s),
        Phase::IntegerCount => arguments::integer_count(word, s, v),
        Phase::RealCount => arguments::real_count(word, settings.reals, s, v),
        Phase::Real => arguments::real(word, settings.reals, s, v),
        Phase::AliasName => statement::name(Phase::Target, word, s, v),
        Phase::Target => statement::target(s, v),
    }
}

// What a word of the text comes to.
fn word_step(
    text: &[u8],
    records: &[u32],
    reals: &[f64],
    index: &[u32],
    settings: Settings,
    s: State,
    word: Checked,
) -> Step
    requires { Scanned text.now (checked_of word) }
    ensures { as_step result ≡ word_step text.now records.now reals.now index.now settings s (word_of (checked_of word)) }
{
    let place = word.place;
    let bytes = lexer::part(text, place, word.len);
    if let Some(fault) = word.fault {
        return statement::refused(fault.into(), place);
    }
    let t = statement::moved(s, place + word.len + 1);
    let seen = context::look(text, records, reals, index, t, place, bytes);
    let counted = statement::counted(t, seen.looked);
    advance(bytes, settings, counted, seen)
}

// What the next word, comment or command, or the text's end, comes to.
pub fn next_step(
    text: &[u8],
    records: &[u32],
    reals: &[f64],
    index: &[u32],
    settings: Settings,
    s: State,
) -> Step
    ensures { as_step result ≡ next_step text.now records.now reals.now index.now settings s }
{
    let word = lexer::checked_word(text, s.at);
    if word.len == 0 {
        return at_end(s.phase, text.len());
    }
    let place = word.place;
    match statement::opens(s.phase, text[place]) {
        Opening::Comment => {
            let end = lexer::line_end(text, place);
            Step::Going(statement::moved(s, end + 1))
        }
        Opening::Command => statement::refused(Reason::Command, place),
        Opening::Word => word_step(text, records, reals, index, settings, s, word),
    }
}
