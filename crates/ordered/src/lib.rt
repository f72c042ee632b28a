// Two saves compared by two cursors, each along an order of one scene's names. An order is a table: numbers in its first half,
// and from there on the nth of each number. Texts and tables may hold anything, and cursors may stand anywhere.
#![tactic(auto)]

ghost use Rattle.std.specs.Prelude.{◌≡◌, ◌/◌, drop, get_or, length};
ghost use Rattle.content.specs.Content.{same_content};
ghost use Rattle.keys.specs.Key.{same_key};
ghost use Rattle.scene.specs.Record.{field_in};
ghost use Rattle.ordered.specs.Lent.{lent};
ghost use Rattle.ordered.specs.Lines.{content_by, handed, key_by, lines_from, numbers_in};
ghost use Rattle.ordered.specs.Turn.{turn_told};
ghost use Rattle.ordered.specs.Turns.{order_of, turn_at, turn_of};

use comparison::{Line, Place, State};
use content::Scene;
use std::cmp::Ordering;
use table::{MODIFIER, TARGET};

// How far each order is walked.
#[derive(Clone, Copy, PartialEq, Eq, Debug)]
pub struct Cursors {
    pub left: usize,
    pub right: usize,
}

// The next line, and where to go on behind it.
#[derive(Clone, Copy, PartialEq, Eq, Debug)]
pub struct NextLine {
    pub cursors: Cursors,
    pub line: Line,
}

// What the first of two orders come to: a number with its nth has a line, or both are the same.
#[derive(Clone, Copy)]
enum Turn {
    Left(usize, usize),
    Right(usize, usize),
    Changed(usize, usize),
    Same,
}

// A scene as it is lent, with an order of its names.
#[derive(Clone, Copy)]
pub struct OrderedScene<'a> {
    pub scene: Scene<'a>,
    pub order: &'a [u32],
}

impl<'a> OrderedScene<'a> {
    // The name in the key of a number.
    fn key_name(self, n: usize) -> &'a [u8]
        ensures { result.now ≡ (key_by (lent self.entry) n).name }
    {
        keys::key_name(self.scene.text, self.scene.records, n)
    }

    // How many numbers the order has.
    fn count(self) -> usize
        ensures { result ≡ length self.entry.order.now / 2 }
    {
        self.order.len() / 2
    }

    // The number at a place of the order; 0 where it has none, as number 0 is no record's.
    fn number_at(self, i: usize) -> usize
        ensures { result ≡ get_or self.entry.order.now i 0 }
    {
        self.order.get(i).copied().unwrap_or(0) as usize
    }

    // The nth of a number, as the order has it; 0 where it has none (`nth_in`).
    fn nth_of(self, n: usize) -> usize
        ensures { result ≡ (key_by (lent self.entry) n).nth }
    {
        if n == 0 {
            return 0;
        }
        let entry = self.order[self.count()..].get(n - 1);
        entry.copied().unwrap_or(0) as usize
    }
}

// Which goes first: number m of the left scene or number n of the right one.
fn order_of(left: OrderedScene<'_>, m: usize, right: OrderedScene<'_>, n: usize) -> Ordering
    ensures { result ≡ order_of (key_by (lent left.entry) m) (key_by (lent right.entry) n) }
{
    let a = left.key_name(m);
    let b = right.key_name(n);
    if keys::lower(a, b) {
        return Ordering::Less;
    }
    if keys::lower(b, a) {
        return Ordering::Greater;
    }
    let i = left.nth_of(m);
    let j = right.nth_of(n);
    i.cmp(&j)
}

// Whether link k of number m in the left scene and of number n in the right one leads to the same key.
fn same_link(left: OrderedScene<'_>, m: usize, right: OrderedScene<'_>, n: usize, k: usize) -> bool
    ensures { result ≡ same_key (key_by (lent left.entry) (field_in left.entry.scene.records.now m k)) (key_by (lent right.entry) (field_in right.entry.scene.records.now n k)) }
{
    let i = left.scene.number(m, k);
    let j = right.scene.number(n, k);
    if left.nth_of(i) != right.nth_of(j) {
        return false;
    }
    lexer::same(left.key_name(i), right.key_name(j))
}

// Whether both have the same content.
fn same_content(left: OrderedScene<'_>, m: usize, right: OrderedScene<'_>, n: usize) -> bool
    ensures { result ≡ same_content (content_by (lent left.entry) m) (content_by (lent right.entry) n) }
{
    content::same_reals(left.scene, m, right.scene, n)
        && content::same_but_links(left.scene, m, right.scene, n)
        && same_link(left, m, right, n, TARGET)
        && same_link(left, m, right, n, MODIFIER)
}

// What number m of the left scene and number n of the right one come to.
fn turn_of(left: OrderedScene<'_>, m: usize, right: OrderedScene<'_>, n: usize) -> Turn
    ensures { turn_told (Some result) ≡ turn_of (lent left.entry) (lent right.entry) m n }
{
    match order_of(left, m, right, n) {
        Ordering::Less => Turn::Left(m, left.nth_of(m)),
        Ordering::Greater => Turn::Right(n, right.nth_of(n)),
        Ordering::Equal => {
            if same_content(left, m, right, n) {
                return Turn::Same;
            }
            Turn::Changed(m, left.nth_of(m))
        }
    }
}

// What the first of both orders come to, from cursor i and cursor j on.
fn turn_at(left: OrderedScene<'_>, i: usize, right: OrderedScene<'_>, j: usize) -> Option<Turn>
    ensures { turn_told result ≡ turn_at (lent left.entry) (lent right.entry) (drop i (numbers_in left.entry.order.now)) (drop j (numbers_in right.entry.order.now)) }
{
    let m = left.number_at(i);
    let n = right.number_at(j);
    if left.count() <= i {
        if right.count() <= j {
            return None;
        }
        return Some(Turn::Right(n, right.nth_of(n)));
    }
    if right.count() <= j {
        return Some(Turn::Left(m, left.nth_of(m)));
    }
    Some(turn_of(left, m, right, n))
}

// The next line from two cursors on: keys that are the same in both scenes have none.
pub fn next_line(left: OrderedScene<'_>, right: OrderedScene<'_>, from: Cursors) -> Option<NextLine>
    ensures { handed (lent left.entry) (lent right.entry) result ≡ lines_from (lent left.entry) (lent right.entry) from }
{
    // Counted by hand: two cursors move through two orders, and no one iterator has both.
    let mut i = from.left;
    let mut j = from.right;
    loop {
        let (cursors, place, nth, state) = match turn_at(left, i, right, j)? {
            Turn::Left(m, nth) => ((i + 1, j), Place::Left(m), nth, State::OnlyLeft),
            Turn::Right(n, nth) => ((i, j + 1), Place::Right(n), nth, State::OnlyRight),
            Turn::Changed(m, nth) => ((i + 1, j + 1), Place::Left(m), nth, State::Changed),
            Turn::Same => {
                i += 1;
                j += 1;
                continue;
            }
        };
        return Some(NextLine {
            cursors: Cursors {
                left: cursors.0,
                right: cursors.1,
            },
            line: Line { place, nth, state },
        });
    }
}
