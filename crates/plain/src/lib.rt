// Statements that are written plainly, read whole: their words are taken one after the other, and no state is handed on between
// them. What is written in another way, or wrongly, is left to the steps of the parser, which begin where the last plain word ended.
#![tactic(auto)]

ghost use Rattle.std.specs.Prelude.{cond, List, ◌≡◌, ℕ, ◌+◌, ◌-◌, ◌≤◌, ◌<◌, eqb, IfSome, MatchOption};
ghost use Rattle.plain.specs.Plain.{Begins, Counting, Fills, Links, Names, Opens, Stores, alias_at, idle_at, primitive_at, state_at, unfilled};
ghost use Rattle.context.specs.Seen.{back};
ghost use Rattle.progress.specs.Invariant.{Inv};
ghost use Rattle.scene.specs.HouseRules.{breach_at, house_rules};
ghost use Rattle.scene.specs.Record.{line_at};
ghost use Rattle.scene.specs.declared.Settings.{Settings};
ghost use Rattle.statement.specs.States.{clipped};
ghost use Rattle.statement.specs.declared.Phase.TheVariants.{Real};

use scene::Settings;
use statement::{Draft, Phase, State, narrow};
use word_scan::{Passed, Valued};

// Between two statements, or within one: the place and its line, records and reals stored, entries of the index looked at.
#[derive(Clone, Copy)]
struct Between {
    at: usize,
    line: usize,
    count: usize,
    used: usize,
    looked: u32,
}

// The number that a modifier leads to, and the entries looked at for it.
#[derive(Clone, Copy)]
struct Link {
    number: u32,
    looked: u32,
}

// A statement behind its modifier: the place and the line there, the entries looked at, and the link.
#[derive(Clone, Copy)]
struct Opened {
    at: usize,
    line: usize,
    looked: u32,
    link: u32,
}

// A statement up to its reals: the place and the line there, the entries looked at, how many reals come, the line of its name, and
// its record.
#[derive(Clone, Copy)]
struct Head {
    at: usize,
    line: usize,
    looked: u32,
    reals: u32,
    named: usize,
    draft: Draft,
}

// How far the reals were stored: how many are left, and the place, its line and the reals stored then.
#[derive(Clone, Copy)]
struct Filled {
    left: u32,
    at: usize,
    line: usize,
    used: usize,
}

// The modifier's link.
fn link_of(text: &[u8], records: &[u32], index: &[u32], count: usize, word: &[u8]) -> Option<Link>
    ensures { IfSome result (Links text.now records.now index.now count word.now) }
{
    if lexer::same(word, b"void") {
        return Some(Link {
            number: 0,
            looked: 0,
        });
    }
    let found = index::search(text, records, index, count, word);
    if found.number == 0 {
        return None;
    }
    Some(Link {
        number: narrow(found.number),
        looked: found.looked,
    })
}

// The modifier of a statement.
fn modifier(
    text: &[u8],
    records: &[u32],
    index: &[u32],
    settings: Settings,
    b: Between,
) -> Option<Opened>
    requires { b.line ≤ 4294967295 + line_at text.now b.at }
    ensures { IfSome result (Opens text.now records.now index.now settings b) }
{
    let w = word_scan::word(text, b.at)?;
    let first = text[w.place];
    if first == b'#' || first == b'!' {
        return None;
    }
    if settings.records <= b.count {
        return None;
    }
    let l = link_of(
        text,
        records,
        index,
        b.count,
        lexer::part(text, w.place, w.len),
    )?;
    Some(Opened {
        at: w.next,
        line: b.line + w.lines,
        looked: b.looked.saturating_add(l.looked),
        link: l.number,
    })
}

// The name that stands next.
#[inline(always)]
fn name(text: &[u8], at: usize) -> Option<Passed>
    ensures { IfSome result (Names text.now at) }
{
    let w = word_scan::word(text, at)?;
    if lexer::same(lexer::part(text, w.place, w.len), b"void") {
        return None;
    }
    Some(w)
}

// An alias, behind the word `alias`: its name and its target.
fn alias(text: &[u8], records: &[u32], index: &[u32], b: Between, link: u32) -> Option<Head>
    requires { b.line ≤ 4294967295 + line_at text.now b.at }
    ensures { IfSome result (λ head. (room : Settings) → Begins text.now records.now index.now room (alias_at b link) b.line head) }
{
    let n = name(text, b.at)?;
    let t = word_scan::word(text, n.next)?;
    let found = index::search(
        text,
        records,
        index,
        b.count,
        lexer::part(text, t.place, t.len),
    );
    let number = found.number;
    if number == 0 {
        return None;
    }
    let o = context::source_of(records, number);
    Some(Head {
        at: t.next,
        line: b.line + n.lines + t.lines,
        looked: b.looked.saturating_add(found.looked),
        reals: 0,
        named: b.line + n.before,
        draft: Draft {
            kind: o.kind,
            modifier: link,
            target: narrow(number),
            name: narrow(n.place),
            size: narrow(n.len),
            string: o.string,
            strings: o.strings,
            real: o.real,
            reals: o.reals,
        },
    })
}

// The index of the first of n reals.
fn first_real(n: u32, used: usize) -> u32
    ensures { result ≡ cond (eqb n 0) 0 (clipped used) }
{
    if n == 0 { 0 } else { narrow(used) }
}

// The counts behind a name: of no strings, of no integers, and of the reals. The value is that of the reals, and the lines are those
// of all three.
fn counts_at(text: &[u8], at: usize) -> Option<Valued<u32>>
    ensures { IfSome result (Counting text.now at) }
{
    let s = word_scan::count(text, at)?;
    if s.value != 0 {
        return None;
    }
    let i = word_scan::count(text, s.next)?;
    if i.value != 0 {
        return None;
    }
    let r = word_scan::count(text, i.next)?;
    Some(Valued {
        value: r.value,
        next: r.next,
        lines: s.lines + i.lines + r.lines,
    })
}

// A primitive without strings, behind its type: its name and its counts.
fn primitive(text: &[u8], settings: Settings, b: Between, link: u32, kind: u32) -> Option<Head>
    requires { b.line ≤ 4294967295 + line_at text.now b.at }
    ensures { IfSome result (λ head. (table index : List ℕ) → Begins text.now table index settings (primitive_at b link kind) b.line head) }
{
    let n = name(text, b.at)?;
    let c = counts_at(text, n.next)?;
    let reals = c.value;
    if !kinds::strings_allowed(kind, 0) {
        return None;
    }
    if !kinds::reals_allowed(kind, reals) {
        return None;
    }
    if !arguments::fits(b.used, reals, settings.reals) {
        return None;
    }
    Some(Head {
        at: c.next,
        line: b.line + n.lines + c.lines,
        looked: b.looked,
        reals,
        named: b.line + n.before,
        draft: Draft {
            kind,
            modifier: link,
            target: 0,
            name: narrow(n.place),
            size: narrow(n.len),
            string: 0,
            strings: 0,
            real: first_real(reals, b.used),
            reals,
        },
    })
}

// A statement up to its reals.
fn head_at(
    text: &[u8],
    records: &[u32],
    index: &[u32],
    settings: Settings,
    b: Between,
) -> Option<Head>
    requires { b.line ≤ 4294967295 + line_at text.now b.at }
    ensures { IfSome result (Begins text.now records.now index.now settings (idle_at b) b.line) }
{
    let m = modifier(text, records, index, settings, b)?;
    let w = word_scan::word(text, m.at)?;
    let c = Between {
        at: w.next,
        line: m.line + w.lines,
        count: b.count,
        used: b.used,
        looked: m.looked,
    };
    let bytes = lexer::part(text, w.place, w.len);
    if lexer::same(bytes, b"alias") {
        return alias(text, records, index, c, m.link);
    }
    let kind = type_names::type_number(bytes);
    if kind == 0 {
        return None;
    }
    let mode = settings.mode;
    if kinds::is_retired(mode, kind) {
        return None;
    }
    primitive(text, settings, c, m.link, kind)
}

// Whether a real breaks a house rule, so many reals of its statement being left behind it. The first two break none.
fn breaks(reals: &[f64], d: Draft, left: u32, used: usize, x: f64) -> bool
    ensures { result ≡ breach_at house_rules d.kind (d.reals - left) x (back reals.now used 1) (back reals.now used 2) }
{
    let count = arguments::less(d.reals, left);
    if count < 3 {
        return false;
    }
    if !kinds::is_ruled(d.kind) {
        return false;
    }
    let previous = context::back(reals, used, 1);
    let first = context::back(reals, used, 2);
    kinds::breaches(d.kind, count, x, previous, first)
}

// The next real, stored where it is plain and breaks no rule. So many are left behind it.
fn store(
    text: &[u8],
    reals: &mut [f64],
    room: usize,
    d: Draft,
    left: u32,
    used: usize,
    at: usize,
) -> Option<Valued<f64>>
    ensures { MatchOption result (reals.new ≡ reals.old) (λ x. Stores text.now reals.old room d left used at x reals.new) }
{
    let x = word_scan::real(text, at)?;
    if breaks(reals, d, left, used, x.value) {
        return None;
    }
    if room.min(reals.len()) <= used {
        return None;
    }
    reals[used] = x.value;
    Some(x)
}

// The reals of a statement, stored as far as they are plain.
fn fill(text: &[u8], reals: &mut [f64], settings: Settings, h: Head, used: usize) -> Filled
    requires { h.line ≤ 4294967295 + line_at text.now h.at }
    ensures { Fills text.now reals.old settings h.draft (unfilled h used) result reals.new }
{
    let d = h.draft;
    let mut f = Filled {
        left: h.reals,
        at: h.at,
        line: h.line,
        used,
    };
    for left in (0..h.reals).rev() {
        let Some(x) = store(text, reals, settings.reals, d, left, f.used, f.at) else {
            return f;
        };
        f = Filled {
            left,
            at: x.next,
            line: f.line + x.lines,
            used: f.used + 1,
        };
    }
    f
}

// The state before a real that is left.
fn at_real(count: usize, h: Head, f: Filled) -> State
    requires { 0 < f.left }
    ensures { result ≡ state_at count f.used f.at (f.left - 1) h.looked Real h.draft }
{
    State {
        at: f.at,
        count,
        used: f.used,
        left: f.left - 1,
        looked: h.looked,
        phase: Phase::Real,
        draft: h.draft,
    }
}

// Reads statements whole from where a reading stands between two of them, and stores and enters them, as long as they are plain, and
// passes comments between them. Within a statement nothing is read.
pub fn statements(
    text: &[u8],
    records: &mut [u32],
    reals: &mut [f64],
    index: &mut [u32],
    settings: Settings,
    s: State,
) -> State
    ensures inv { Inv text.now records.old reals.old index.old settings s → Inv text.now records.new reals.new index.new settings result }
    ensures at_le_at { s.at ≤ result.at }
{
    let phase = s.phase;
    if !statement::is_idle(phase) {
        return s;
    }
    let mut b = Between {
        at: s.at,
        line: narrow(line_numbers::line_of(text, records, s.count, s.at)) as usize,
        count: s.count,
        used: s.used,
        looked: s.looked,
    };
    while b.count < settings.records {
        let Some(h) = head_at(text, records, index, settings, b) else {
            let Some(c) = word_scan::comment(text, b.at) else {
                return statement::between(b.at, b.count, b.used, b.looked);
            };
            b.at = c.next;
            b.line += c.lines;
            continue;
        };
        let f = fill(text, reals, settings, h, b.used);
        if 0 < f.left {
            return at_real(b.count, h, f);
        }
        let more = linker::enter_row(text, records, index, b.count, h.draft, narrow(h.named));
        b = Between {
            at: f.at,
            line: f.line,
            count: b.count + 1,
            used: f.used,
            looked: h.looked.saturating_add(more),
        };
    }
    statement::between(b.at, b.count, b.used, b.looked)
}
