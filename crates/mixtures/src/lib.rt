// What a primitive leads to over modifier links and both sides of mixtures: a walk that marks what it reaches. The tables may hold
// anything.
#![tactic(auto)]

ghost use Rattle.std.specs.Prelude.{◌≡◌, length};
ghost use Rattle.graph.specs.Graph.{goes_from, graph_of, side_in};
ghost use Rattle.scene.specs.Record.{field_in};
ghost use Rattle.mixtures.specs.Walk.{ReachesFrom, Steps, StepsAside};

use table::{KIND, MODIFIER};

// Side k of primitive n, 0 its foreground and 1 its background; 0 where the table has none.
#[tactic(auto, unfolding(graph::specs::Graph::side_in))]
pub fn side(pairs: &[u32], n: usize, k: usize) -> usize
    ensures { result ≡ side_in pairs.now n k }
{
    if n == 0 {
        return 0;
    }
    let row = n - 1;
    if pairs.len() / 2 < row {
        return 0;
    }
    pairs.get((row * 2).saturating_add(k)).copied().unwrap_or(0) as usize
}

fn modifier(records: &[u32], n: usize) -> usize
    ensures { result ≡ field_in records.now n 1 }
{
    table::field(records, n, MODIFIER) as usize
}

// Whether the walk goes on from a primitive that it reached. A flag and no closure: the definition `goes_from` has it.
fn passes(records: &[u32], n: usize, through: bool) -> bool
    ensures { result ≡ goes_from through (field_in records.now n 0) }
{
    if through {
        return true;
    }
    !kinds::is_material(table::field(records, n, KIND))
}

// A link leads to primitive m: marks it and, where the walk goes on from there, follows its modifier, then its sides.
#[cycle(mixture_step_modifier_step)]
fn modifier_step(
    records: &[u32],
    pairs: &[u32],
    marks: &mut [u32],
    m: usize,
    depth: usize,
    through: bool,
)
    ensures marks_len_unchanged { length marks.new ≡ length marks.old }
    ensures steps { Steps (graph_of records.now pairs.now) through m depth marks.old marks.new }
{
    if m == 0 {
        return;
    }
    if marks.len() <= m {
        return;
    }
    if marks[m] != 0 {
        return;
    }
    if depth == 0 {
        return;
    }
    marks[m] = 1;
    if passes(records, m, through) {
        modifier_step(
            records,
            pairs,
            marks,
            modifier(records, m),
            depth - 1,
            through,
        );
        mixture_step(records, pairs, marks, m, depth - 1, through);
    }
}

// Follows both sides of primitive n.
#[cycle(mixture_step_modifier_step)]
fn mixture_step(
    records: &[u32],
    pairs: &[u32],
    marks: &mut [u32],
    n: usize,
    depth: usize,
    through: bool,
)
    ensures marks_len_unchanged { length marks.new ≡ length marks.old }
    ensures steps_aside { StepsAside (graph_of records.now pairs.now) through n depth marks.old marks.new }
{
    modifier_step(records, pairs, marks, side(pairs, n, 0), depth, through);
    modifier_step(records, pairs, marks, side(pairs, n, 1), depth, through);
}

// Marks what primitive n leads to, and nothing else.
pub fn reach(records: &[u32], pairs: &[u32], marks: &mut [u32], n: usize, through: bool)
    ensures marks_len_unchanged { length marks.new ≡ length marks.old }
    ensures reaches_from { ReachesFrom (graph_of records.now pairs.now) through n (length marks.old) marks.new }
{
    marks.fill(0);
    let depth = marks.len();
    modifier_step(records, pairs, marks, modifier(records, n), depth, through);
    mixture_step(records, pairs, marks, n, depth, through);
}
