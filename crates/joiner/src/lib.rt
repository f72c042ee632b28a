// Two hands' edits of a base joined: a proposed scene, and the check of a typed one.
#![tactic(auto)]

ghost use Rattle.join_answer.specs.Answer.{Joins, answer_of};
ghost use Rattle.joiner.specs.Code.{ChecksOrder, ProposesOrder, read_proposed};
ghost use Rattle.joining.specs.Outcome.{checked, proposed};
ghost use Rattle.scene.specs.Record.{settings_for};
ghost use Rattle.std.specs.Prelude.{◌≡◌, length};

use join_answer::{Joined, refuse, settle};
use joining::{Scene, SceneRefusal};
use planning::MOST_BOTH;
use scene::{Mode, Reason, Refusal};
use table::MOST_BYTES;

// A refusal of a whole text, or of none.
fn refusal_of(scene: Scene, reason: Reason) -> SceneRefusal
    ensures { result ≡ record { scene = scene; refusal = record { reason = reason; place = 0 } } }
{
    let refusal = Refusal { reason, place: 0 };
    SceneRefusal { scene, refusal }
}

// A proposed text, read and put into the output.
fn read_proposed(
    mode: Mode,
    text: &[u8],
    records: &mut [u32],
    reals: &mut [f64],
    out: &mut [u8],
) -> Result<Joined, SceneRefusal>
    ensures { Joins (read_proposed mode text.now records.old reals.old (length out.old)) records.old reals.old out.old (answer_of result) records.new reals.new out.new }
{
    match reader::read_with_own_tables(mode, text, records, reals) {
        Err(refusal) => refuse(
            records,
            reals,
            out,
            SceneRefusal {
                scene: Scene::Joined,
                refusal,
            },
        ),
        Ok(counts) => settle(text, records, reals, out, counts.primitives, counts.reals),
    }
}

// The text of an order proposed. A text that is longer than any that is read is refused as the reader would.
fn propose_order(
    mode: Mode,
    left: &[u8],
    right: &[u8],
    order: &[usize],
    records: &mut [u32],
    reals: &mut [f64],
    out: &mut [u8],
) -> Result<Joined, SceneRefusal>
    ensures { ProposesOrder mode left.now right.now order.now records.old reals.old out.old (answer_of result) records.new reals.new out.new }
{
    let mut text = [0u8; MOST_BYTES];
    let end = joined_hands::put_hands(
        mode,
        records.len(),
        reals.len(),
        left,
        right,
        order,
        &mut text,
    );
    if end.full {
        return refuse(
            records,
            reals,
            out,
            refusal_of(Scene::Joined, Reason::TextTooLong),
        );
    }
    let at = end.at.min(MOST_BYTES);
    read_proposed(mode, &text[..at], records, reals, out)
}

// A typed text read, and checked for an order.
fn check_order(
    mode: Mode,
    left: &[u8],
    right: &[u8],
    typed: &[u8],
    order: &[usize],
    records: &mut [u32],
    reals: &mut [f64],
    out: &mut [u8],
) -> Result<Joined, SceneRefusal>
    ensures { ChecksOrder mode left.now right.now typed.now order.now records.old reals.old out.old (answer_of result) records.new reals.new out.new }
{
    match reader::read_with_own_tables(mode, typed, records, reals) {
        Err(refusal) => refuse(
            records,
            reals,
            out,
            SceneRefusal {
                scene: Scene::Joined,
                refusal,
            },
        ),
        Ok(counts) => {
            let count = counts.primitives;
            if joined_hands::holds(mode, left, right, typed, records, reals, count, order) {
                return settle(typed, records, reals, out, count, counts.reals);
            }
            refuse(
                records,
                reals,
                out,
                refusal_of(Scene::None, Reason::NotTheJoin),
            )
        }
    }
}

// Proposes a join of two hands' edits of a base. All texts are read in one mode at the lent sizes; the joined text goes into the
// output, and the tables are left as reading it leaves them.
pub fn propose(
    mode: Mode,
    base: &[u8],
    left: &[u8],
    right: &[u8],
    records: &mut [u32],
    reals: &mut [f64],
    out: &mut [u8],
) -> Result<Joined, SceneRefusal>
    ensures { Joins (proposed (settings_for mode (length records.old) (length reals.old)) base.now left.now right.now (length out.old)) records.old reals.old out.old (answer_of result) records.new reals.new out.new }
{
    let planned = planning::plan(mode, records.len(), reals.len(), base, left, right);
    let answer = planned.answer;
    let order = planned.order;
    match answer {
        Err(why) => refuse(records, reals, out, why),
        Ok(count) => {
            let end = count.min(MOST_BOTH);
            propose_order(mode, left, right, &order[..end], records, reals, out)
        }
    }
}

// Checks a typed join of two hands' edits of a base. What is accepted goes into the output as it is, and the tables are left as
// reading it leaves them.
pub fn check(
    mode: Mode,
    base: &[u8],
    left: &[u8],
    right: &[u8],
    typed: &[u8],
    records: &mut [u32],
    reals: &mut [f64],
    out: &mut [u8],
) -> Result<Joined, SceneRefusal>
    ensures { Joins (checked (settings_for mode (length records.old) (length reals.old)) base.now left.now right.now typed.now (length out.old)) records.old reals.old out.old (answer_of result) records.new reals.new out.new }
{
    let planned = planning::plan(mode, records.len(), reals.len(), base, left, right);
    let answer = planned.answer;
    let order = planned.order;
    match answer {
        Err(why) => refuse(records, reals, out, why),
        Ok(count) => {
            let end = count.min(MOST_BOTH);
            check_order(mode, left, right, typed, &order[..end], records, reals, out)
        }
    }
}
