// Which definitions are taken of two hands' scenes, from the matches of each hand's records in the other's scene and in the base.
// Both hands are numbered together: right's records first, then left's.
#![tactic(auto)]

ghost use Rattle.std.specs.Prelude.{◌≡◌, length};
ghost use Rattle.joining.specs.Pick.{chosen};
ghost use Rattle.joining.specs.declared.Choice.TheVariants.{Left, Right};
ghost use Rattle.picking.specs.Picking.{Picks, choice_left, choice_right, is_equal, mark_at, mark_left, mark_right, right_kept};

use joining::Choice;
use table::number_at;

// What becomes of a record: it is dropped, it waits for its place, or its name clashes. Numbers and no enum, as the definitions
// `taken_to`, which adds them, `standing` and `order_from` have them in tables of numbers.
pub const DROPPED: usize = 0;

pub const WAITING: usize = 1;

const CLASHES: usize = 2;

// Whether a match is of equal definitions.
pub fn is_equal(m: usize) -> bool
    ensures { result ≡ is_equal m }
{
    m % 2 == 1
}

// Three facts about a name, as the definition `chosen` has them.
fn chosen(agree: bool, left_kept: bool, right_kept: bool) -> Choice
    ensures { result ≡ chosen agree left_kept right_kept }
{
    if agree {
        return Choice::Left;
    }
    if left_kept {
        return Choice::Right;
    }
    if right_kept {
        return Choice::Left;
    }
    Choice::Clash
}

// Whether right left the base's definition, of a name that left has: its match in right, and in the base.
fn right_kept(right_base: &[usize], other: usize, base: usize) -> bool
    ensures { result ≡ right_kept right_base.now other base }
{
    if other == 0 {
        return base == 0;
    }
    is_equal(number_at(right_base, other / 2))
}

// The choice for the name of left's record l.
pub fn choice_left(
    left_right: &[usize],
    left_base: &[usize],
    right_base: &[usize],
    l: usize,
) -> Choice
    ensures { result ≡ choice_left left_right.now left_base.now right_base.now l }
{
    let other = number_at(left_right, l);
    let base = number_at(left_base, l);
    chosen(
        is_equal(other),
        is_equal(base),
        right_kept(right_base, other, base),
    )
}

// The choice for the name of right's record r.
pub fn choice_right(
    left_right: &[usize],
    left_base: &[usize],
    right_left: &[usize],
    right_base: &[usize],
    r: usize,
) -> Choice
    ensures { result ≡ choice_right left_right.now left_base.now right_left.now right_base.now r }
{
    let other = number_at(right_left, r);
    if other == 0 {
        let base = number_at(right_base, r);
        return chosen(false, base == 0, is_equal(base));
    }
    choice_left(left_right, left_base, right_base, other / 2)
}

// What becomes of a record whose own hand is taken by the choice `own`.
fn mark_of(choice: Choice, own: Choice) -> usize
    ensures left { own ≡ Left → result ≡ mark_left choice }
    ensures right { own ≡ Right → result ≡ mark_right choice }
{
    match (choice, own) {
        (Choice::Clash, _) => CLASHES,
        (Choice::Left, Choice::Left) | (Choice::Right, Choice::Right) => WAITING,
        _ => DROPPED,
    }
}

// What becomes of number n of both hands.
fn mark_at(
    left_right: &[usize],
    left_base: &[usize],
    right_left: &[usize],
    right_base: &[usize],
    n: usize,
) -> usize
    ensures { result ≡ mark_at left_right.now left_base.now right_left.now right_base.now n }
{
    let split = right_left.len();
    if n <= split {
        let choice = choice_right(left_right, left_base, right_left, right_base, n);
        return mark_of(choice, Choice::Right);
    }
    let choice = choice_left(left_right, left_base, right_base, n - split);
    mark_of(choice, Choice::Left)
}

// Marks what becomes of each, as many as the table takes: how many are taken, or none where both hands changed a name differently.
pub fn pick(
    left_right: &[usize],
    left_base: &[usize],
    right_left: &[usize],
    right_base: &[usize],
    marks: &mut [usize],
) -> Option<usize>
    ensures { Picks (mark_at left_right.now left_base.now right_left.now right_base.now) (length marks.old) result marks.new }
{
    let mut count = 0;
    for (i, place) in marks.iter_mut().enumerate() {
        let mark = mark_at(left_right, left_base, right_left, right_base, i + 1);
        if mark == CLASHES {
            return None;
        }
        *place = mark;
        count += mark;
    }
    Some(count)
}
