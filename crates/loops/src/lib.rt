// The lowest primitive that leads back to itself over modifier links and sides, through materials too. The tables may hold anything.
#![tactic(auto)]

ghost use Rattle.std.specs.Prelude.{◌≡◌, length};
ghost use Rattle.graph.specs.Graph.{graph_of};
ghost use Rattle.loops.specs.Found.{Finds, Tells};

// Whether a primitive leads back to itself, where none below it does. One with no side then does not, as modifiers lead down.
fn is_looped(records: &[u32], pairs: &[u32], marks: &mut [u32], n: usize) -> bool
    ensures marks_len_unchanged { length marks.new ≡ length marks.old }
    ensures tells { Tells (graph_of records.now pairs.now) (length marks.old) n result }
{
    if (mixtures::side(pairs, n, 0) == 0) & (mixtures::side(pairs, n, 1) == 0) {
        return false;
    }
    mixtures::reach(records, pairs, marks, n, true);
    if n < marks.len() {
        return marks[n] != 0;
    }
    false
}

// The lowest primitive on a loop, 0 for none, of as many as there are marks behind the first. The marks may hold anything before and
// after.
pub fn first_loop(records: &[u32], pairs: &[u32], marks: &mut [u32]) -> usize
    ensures marks_len_unchanged { length marks.new ≡ length marks.old }
    ensures finds { Finds (graph_of records.now pairs.now) (length marks.old) result }
{
    for n in 1..marks.len() {
        if is_looped(records, pairs, marks, n) {
            return n;
        }
    }
    0
}
