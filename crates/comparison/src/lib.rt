// Two saves compared, name by name. A table of records is lent up to its scene's last record: its length gives the count.
#![tactic(auto)]

ghost use Rattle.std.specs.Prelude.{◌≡◌, suc};
ghost use Rattle.keys.specs.Key.{nth_of};
ghost use Rattle.content.specs.Scene.{bare_rows, rows};
ghost use Rattle.comparison.specs.Answer.{state_number};
ghost use Rattle.comparison.specs.Next.{answer_of};
ghost use Rattle.comparison.specs.NextLine.{next_line};
ghost use Rattle.comparison.specs.Step.{step_told};
ghost use Rattle.comparison.specs.Steps.{first_numbers, lesser_of, next_numbers, next_step, numbers_after, numbers_of, step_by};

use content::Scene;

// A primitive's number in one of both scenes. Number 0 stands before the first key.
#[derive(Clone, Copy, PartialEq, Eq, Debug)]
pub enum Place {
    Left(usize),
    Right(usize),
}

// Only in the left scene, only in the right one, or in both and not the same.
#[derive(Clone, Copy, PartialEq, Eq, Debug)]
pub enum State {
    OnlyLeft = 1,
    OnlyRight = 2,
    Changed = 3,
}

impl State {
    // As host programs are told it.
    pub fn number(self) -> usize
        ensures { result ≡ state_number self }
    {
        self as usize
    }
}

// A line: a primitive with its key, its nth, and its state.
#[derive(Clone, Copy, PartialEq, Eq, Debug)]
pub struct Line {
    pub place: Place,
    pub nth: usize,
    pub state: State,
}

// What a key of either scene comes to: both have the same, or it has a line.
#[derive(Clone, Copy)]
enum Step {
    Same(Place),
    Line(Line),
}

// A key's number in each scene, and its nth. Number 0 is none, as in a table's links: a key may stand in one scene alone.
#[derive(Clone, Copy)]
struct Numbers {
    left: usize,
    right: usize,
    nth: usize,
}

// The numbers of the key that has a name and so many of that name above it.
fn at_key(left: Scene<'_>, right: Scene<'_>, name: &[u8], above: usize) -> Option<Numbers>
    ensures { result ≡ numbers_of (bare_rows left.entry) (bare_rows right.entry) (nth_of name.now (suc above)) }
{
    let m = keys::number_of_key(left.text, left.records, name, above);
    let n = keys::number_of_key(right.text, right.records, name, above);
    if m == 0 && n == 0 {
        return None;
    }
    Some(Numbers {
        left: m,
        right: n,
        nth: above + 1,
    })
}

// Of the names of number m in the left scene and n in the right one, the lesser; the other where one is 0, and so none.
fn lesser<'a>(left: Scene<'a>, m: usize, right: Scene<'a>, n: usize) -> &'a [u8]
    ensures { result.now ≡ lesser_of left.entry.text.now left.entry.records.now m right.entry.text.now right.entry.records.now n }
{
    let first = table::name_of(left.text, left.records, m);
    let second = table::name_of(right.text, right.records, n);
    if m == 0 {
        return second;
    }
    if n == 0 {
        return first;
    }
    if keys::lower(second, first) {
        return second;
    }
    first
}

// The numbers of the first key of the least name above a name.
fn next_name<'a>(left: Scene<'a>, right: Scene<'a>, name: &[u8]) -> Option<Numbers>
    ensures { result ≡ first_numbers (bare_rows left.entry) (bare_rows right.entry) name.now }
{
    let m = keys::least_above(left.text, left.records, name);
    let n = keys::least_above(right.text, right.records, name);
    if m == 0 && n == 0 {
        return None;
    }
    at_key(left, right, lesser(left, m, right, n), 0)
}

// The numbers of the key that follows the nth of a name.
fn after_key<'a>(left: Scene<'a>, right: Scene<'a>, name: &[u8], nth: usize) -> Option<Numbers>
    ensures { result ≡ numbers_after (bare_rows left.entry) (bare_rows right.entry) (nth_of name.now nth) }
{
    match at_key(left, right, name, nth) {
        Some(at) => Some(at),
        None => next_name(left, right, name),
    }
}

// The numbers of the key that follows the one held.
fn next_key<'a>(left: Scene<'a>, right: Scene<'a>, from: Place) -> Option<Numbers>
    ensures { result ≡ next_numbers (bare_rows left.entry) (bare_rows right.entry) from }
{
    let (scene, n) = match from {
        Place::Left(m) => (left, m),
        Place::Right(n) => (right, n),
    };
    let name = keys::key_name(scene.text, scene.records, n);
    let nth = keys::key_nth(scene.text, scene.records, n);
    after_key(left, right, name, nth)
}

// What a key comes to, by its numbers and by whether its primitives are the same; the latter matters only where both scenes
// have it. The fact is the definition's, `step_by`.
#[tactic(auto, using(crate::proofs::StepLaws::by_case))]
fn step_of(at: Numbers, same: bool) -> Step
    requires { at.left ≡ 0 → at.right ≡ 0 → ⊥ }
    ensures { step_told (Some result) ≡ step_by at same }
{
    let (place, state) = match (at.left, at.right) {
        (0, right) => (Place::Right(right), State::OnlyRight),
        (left, 0) => (Place::Left(left), State::OnlyLeft),
        (left, _) if same => return Step::Same(Place::Left(left)),
        (left, _) => (Place::Left(left), State::Changed),
    };
    Step::Line(Line {
        place,
        nth: at.nth,
        state,
    })
}

// What the key comes to that follows the one held.
fn next_step<'a>(left: Scene<'a>, right: Scene<'a>, from: Place) -> Option<Step>
    ensures { step_told result ≡ next_step (rows left.entry) (rows right.entry) from }
{
    let at = next_key(left, right, from)?;
    let same = content::same_reals(left, at.left, right, at.right)
        && content::same_but_reals(left, at.left, right, at.right);
    Some(step_of(at, same))
}

// The next line after the key held: keys that are the same in both scenes have none. Both scenes have one lifetime, as a name
// of either is looked for in both.
pub fn next_line<'a>(left: Scene<'a>, right: Scene<'a>, from: Place) -> Option<Line>
    ensures { answer_of result ≡ next_line (rows left.entry) (rows right.entry) from }
{
    let mut at = from;
    loop {
        match next_step(left, right, at)? {
            Step::Same(p) => {
                at = p;
            }
            Step::Line(line) => {
                return Some(line);
            }
        }
    }
}
