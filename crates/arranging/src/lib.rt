// The order of what is taken of two hands' scenes: of the names whose needs already stand, the least by bytes comes next. Both hands
// are numbered together, right's records first, then left's. Texts and tables may hold anything.
#![tactic(auto)]

ghost use Rattle.std.specs.Prelude.{[], ◌≡◌, ◌<◌, ◌+◌, ◌/◌, length};
ghost use Rattle.scene.specs.Record.{width};
ghost use Rattle.arranging.specs.Both.{shifted};
ghost use Rattle.arranging.specs.Hands.{both};
ghost use Rattle.arranging.specs.Order.{comes, least_to, lesser_of, order_from, ordered, placed_mark, standing};

use content::Scene;
use picking::{DROPPED, WAITING};
use table::{KIND, MODIFIER, TARGET, WIDTH, number_at};

// A record that has its place: it gives its name, or is a surface and gives none. Marks are numbers, as the definition `order_from` and
// the theorems of joins have them.
const STANDS: usize = 2;

const SURFACE: usize = 3;

// Both hands' scenes, and the match of each number in the other hand. Only texts and records are looked at here.
#[derive(Clone, Copy)]
pub struct Hands<'a> {
    pub left: Scene<'a>,
    pub right: Scene<'a>,
    pub others: &'a [usize],
}

// Left's number n among both hands'; 0 stays none.
fn shifted(split: usize, n: usize) -> usize
    requires { split + n < 18446744073709551616 }
    ensures { result ≡ shifted split n }
{
    if n == 0 {
        return 0;
    }
    split + n
}

impl<'a> Hands<'a> {
    // How many records right's scene has: greater numbers are left's.
    fn split(self) -> usize
        ensures { result ≡ length self.entry.right.records.now / width }
    {
        self.right.records.len() / WIDTH
    }

    // The name of number n.
    fn name(self, n: usize) -> &'a [u8]
        ensures { result.now ≡ (both self.entry).name n }
    {
        let split = self.split();
        if n <= split {
            return table::name_of(self.right.text, self.right.records, n);
        }
        table::name_of(self.left.text, self.left.records, n - split)
    }

    // Where link k of number n leads.
    fn link(self, n: usize, k: usize) -> usize
        ensures { result ≡ (both self.entry).link k n }
    {
        let split = self.split();
        if n <= split {
            return self.right.number(n, k);
        }
        let link = table::field(self.left.records, n - split, k) as usize;
        shifted(split, link)
    }

    // The number in the other hand that has the name of number n; 0 for none.
    fn other(self, n: usize) -> usize
        ensures { result ≡ (both self.entry).other n }
    {
        let split = self.split();
        let other = number_at(self.others, n) / 2;
        if n <= split {
            return shifted(split, other);
        }
        other
    }

    // The type of number n.
    fn kind(self, n: usize) -> u32
        ensures { result ≡ (both self.entry).type n }
    {
        let split = self.split();
        if n <= split {
            return table::field(self.right.records, n, KIND);
        }
        table::field(self.left.records, n - split, KIND)
    }

    // Whether the definition that is taken of number n's name stands; 0 is no name.
    fn stands(self, marks: &[usize], n: usize) -> bool
        ensures { result ≡ standing (both self.entry).other marks.now n }
    {
        if n == 0 {
            return true;
        }
        let other = number_at(marks, self.other(n));
        if other == DROPPED {
            return number_at(marks, n) == STANDS;
        }
        other == STANDS
    }

    // Whether number n is still to come and all that it needs stands.
    fn comes(self, marks: &[usize], n: usize) -> bool
        ensures { result ≡ comes (both self.entry).link (both self.entry).other marks.now n }
    {
        if number_at(marks, n) != WAITING {
            return false;
        }
        if !self.stands(marks, self.link(n, MODIFIER)) {
            return false;
        }
        self.stands(marks, self.link(n, TARGET))
    }

    // Of the best so far, 0 for none, and number n the one with the lesser name.
    fn lesser(self, best: usize, n: usize) -> usize
        ensures { result ≡ lesser_of (both self.entry).name best n }
    {
        if best == 0 {
            return n;
        }
        if keys::lower(self.name(best), self.name(n)) {
            return best;
        }
        n
    }

    // The number that comes next; 0 for none, as the definition `least_to` has it.
    fn next(self, marks: &[usize]) -> usize
        ensures { result ≡ least_to (both self.entry) marks.now (length marks.now) }
    {
        let mut best = 0;
        for i in 0..marks.len() {
            if self.comes(marks, i + 1) {
                best = self.lesser(best, i + 1);
            }
        }
        best
    }

    // The mark of number n once it has its place.
    fn placed_mark(self, n: usize) -> usize
        ensures { result ≡ placed_mark ((both self.entry).type n) }
    {
        if kinds::is_surface(self.kind(n)) {
            return SURFACE;
        }
        STANDS
    }
}

// Puts as many numbers as the table takes into the order; false where one of them has no place. The marks are those of what is
// taken, and change as numbers get their places.
pub fn arrange(hands: Hands<'_>, marks: &mut [usize], order: &mut [usize]) -> bool
    ensures { ordered result order.new ≡ order_from (both hands.entry) (length order.old) marks.old [] }
{
    for place in order.iter_mut() {
        let n = hands.next(marks);
        if n == 0 {
            return false;
        }
        marks[n - 1] = hands.placed_mark(n);
        *place = n;
    }
    true
}
