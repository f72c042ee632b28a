// What is to be joined of a base and two hands' scenes: each text read, each name's definition picked, and all in their order. Both
// hands are numbered together, right's records first, then left's.
#![tactic(auto)]

ghost use Rattle.std.specs.Prelude.{not, ◌&&◌, ◌≡◌, ◌+◌, ◌/◌, ◌≤◌, drop, length, take};
ghost use Rattle.join_meaning.specs.Rows.{pick_rows, row_plan};
ghost use Rattle.name_index.specs.Names.{names_once_in};
ghost use Rattle.picking.specs.Picking.{Picks, mark_at};
ghost use Rattle.planning.specs.Plan.{HandPlans, HandRooms, Plans, Rooms, RowPlans, order_answer, others_of, reply_of, side_scene};
ghost use Rattle.scene.specs.Record.{settings_for, width};

use arranging::Hands;
use joining::{Scene, SceneRefusal};
use pair::Side;
use scene::{Mode, Reason, Refusal};
use table::{MOST_NUMBERS, MOST_REALS, MOST_RECORDS, WIDTH};

// How many records both hands together have at most.
pub const MOST_BOTH: usize = 2 * MOST_RECORDS;

// How many numbers have their places, or which text is refused, why and where; with the numbers in their order.
#[derive(Clone, Copy)]
pub struct Planned {
    pub answer: Result<usize, SceneRefusal>,
    pub order: [usize; MOST_BOTH],
}

// Each hand's records in the other hand's scene: right's first, then left's.
fn match_hands(left: content::Scene<'_>, right: content::Scene<'_>, others: &mut [usize])
    requires { length others.old ≡ length right.records.now / width + length left.records.now / width }
    ensures { others.new ≡ others_of left.entry.text.now left.entry.records.now left.entry.reals.now right.entry.text.now right.entry.records.now right.entry.reals.now }
{
    let split = right.records.len() / WIDTH;
    matching::match_all(right, left, &mut others[..split]);
    matching::match_all(left, right, &mut others[split..]);
}

// What is taken, where right has so many records.
fn pick_others(
    split: usize,
    others: &[usize],
    left_base: &[usize],
    right_base: &[usize],
    marks: &mut [usize],
) -> Option<usize>
    requires { split ≤ length others.now }
    ensures { Picks (mark_at (drop split others.now) left_base.now (take split others.now) right_base.now) (length marks.old) result marks.new }
{
    picking::pick(
        &others[split..],
        left_base,
        &others[..split],
        right_base,
        marks,
    )
}

// Whether a name stands twice in one of three scenes.
fn twice(base: content::Scene<'_>, left: content::Scene<'_>, right: content::Scene<'_>) -> bool
    ensures { result ≡ not (names_once_in base.entry.text.now base.entry.records.now && names_once_in left.entry.text.now left.entry.records.now && names_once_in right.entry.text.now right.entry.records.now) }
{
    if !name_index::names_once(base.text, base.records) {
        return true;
    }
    if !name_index::names_once(left.text, left.records) {
        return true;
    }
    !name_index::names_once(right.text, right.records)
}

// The order of what is taken of three scenes' records, where each name stands once in each scene: how many numbers have their
// places, or why not.
fn order_rows(
    base: content::Scene<'_>,
    left: content::Scene<'_>,
    right: content::Scene<'_>,
    order: &mut [usize],
) -> Result<usize, Reason>
    requires { Rooms left.records.now right.records.now order.old }
    ensures { RowPlans (pick_rows base.entry.text.now base.entry.records.now base.entry.reals.now left.entry.text.now left.entry.records.now left.entry.reals.now right.entry.text.now right.entry.records.now right.entry.reals.now) order.old result order.new }
{
    let split = right.records.len() / WIDTH;
    let lefts = left.records.len() / WIDTH;
    let all = split + lefts;
    let mut others = [0usize; MOST_BOTH];
    let mut left_base = [0usize; MOST_RECORDS];
    let mut right_base = [0usize; MOST_RECORDS];
    let mut marks = [0usize; MOST_BOTH];
    match_hands(left, right, &mut others[..all]);
    matching::match_all(left, base, &mut left_base[..lefts]);
    matching::match_all(right, base, &mut right_base[..split]);
    match pick_others(
        split,
        &others[..all],
        &left_base[..lefts],
        &right_base[..split],
        &mut marks[..all],
    ) {
        None => Err(Reason::ChangedByBoth),
        Some(count) => {
            let hands = Hands {
                left,
                right,
                others: &others[..all],
            };
            if arranging::arrange(hands, &mut marks[..all], &mut order[..count]) {
                return Ok(count);
            }
            Err(Reason::NoOrder)
        }
    }
}

// The order of what is taken of three scenes' records. The tables are the used records alone.
fn plan_rows(
    base: content::Scene<'_>,
    left: content::Scene<'_>,
    right: content::Scene<'_>,
    order: &mut [usize],
) -> Result<usize, Reason>
    requires { Rooms left.records.now right.records.now order.old }
    ensures { RowPlans (row_plan base.entry.text.now base.entry.records.now base.entry.reals.now left.entry.text.now left.entry.records.now left.entry.reals.now right.entry.text.now right.entry.records.now right.entry.reals.now) order.old result order.new }
{
    if twice(base, left, right) {
        return Err(Reason::NameTwice);
    }
    order_rows(base, left, right, order)
}

// No `From`: neither type is of this crate.
fn side_scene(side: Side) -> Scene
    ensures { result ≡ side_scene side }
{
    match side {
        Side::Left => Scene::Left,
        Side::Right => Scene::Right,
    }
}

// The reasons 29 to 31 are of no text.
fn order_answer(made: Result<usize, Reason>) -> Result<usize, SceneRefusal>
    ensures { reply_of result ≡ order_answer made }
{
    match made {
        Ok(count) => Ok(count),
        Err(reason) => Err(SceneRefusal {
            scene: Scene::None,
            refusal: Refusal { reason, place: 0 },
        }),
    }
}

// The plan from a base's records: both hands read into so many numbers and reals, and ordered.
fn plan_hands(
    mode: Mode,
    numbers: usize,
    base: &[u8],
    base_records: &[u32],
    base_reals: &[f64],
    left: &[u8],
    right: &[u8],
    order: &mut [usize],
) -> Result<usize, SceneRefusal>
    requires { HandRooms numbers base_reals.now order.old }
    ensures { HandPlans mode numbers base.now base_records.now base_reals.now left.now right.now order.old (reply_of result) order.new }
{
    let reals = base_reals.len();
    let mut left_records = [0u32; MOST_NUMBERS];
    let mut left_reals = [0.0f64; MOST_REALS];
    let mut right_records = [0u32; MOST_NUMBERS];
    let mut right_reals = [0.0f64; MOST_REALS];
    match pair::read_both(
        mode,
        left,
        &mut left_records[..numbers],
        &mut left_reals[..reals],
        right,
        &mut right_records[..numbers],
        &mut right_reals[..reals],
    ) {
        Err(refused) => Err(SceneRefusal {
            scene: side_scene(refused.side),
            refusal: refused.refusal,
        }),
        Ok(counts) => order_answer(plan_rows(
            content::Scene {
                text: base,
                records: base_records,
                reals: base_reals,
            },
            content::Scene {
                text: left,
                records: table::first_records(&left_records[..numbers], counts.left.primitives),
                reals: &left_reals[..reals],
            },
            content::Scene {
                text: right,
                records: table::first_records(&right_records[..numbers], counts.right.primitives),
                reals: &right_reals[..reals],
            },
            order,
        )),
    }
}

// What is to be joined of three texts, read in a mode into tables of so many numbers and reals.
pub fn plan(
    mode: Mode,
    numbers: usize,
    reals: usize,
    base: &[u8],
    left: &[u8],
    right: &[u8],
) -> Planned
    ensures { Plans (settings_for mode numbers reals) base.now left.now right.now (reply_of result.answer) result.order }
{
    let mut order = [0usize; MOST_BOTH];
    let mut base_records = [0u32; MOST_NUMBERS];
    let mut base_reals = [0.0f64; MOST_REALS];
    let n = numbers.min(MOST_NUMBERS);
    let k = reals.min(MOST_REALS);
    match reader::read_with_own_tables(mode, base, &mut base_records[..n], &mut base_reals[..k]) {
        Err(refusal) => Planned {
            answer: Err(SceneRefusal {
                scene: Scene::Base,
                refusal,
            }),
            order,
        },
        Ok(counts) => {
            let answer = plan_hands(
                mode,
                n,
                base,
                table::first_records(&base_records[..n], counts.primitives),
                &base_reals[..k],
                left,
                right,
                &mut order,
            );
            Planned { answer, order }
        }
    }
}
