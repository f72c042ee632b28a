// What a joining call answers, and leaves in all that is lent: a refusal, or an accepted text.
#![tactic(auto)]

ghost use Rattle.std.specs.Prelude.{Err, ◌≡◌, length, replicate};
ghost use Rattle.join_answer.specs.Answer.{answer_of};
ghost use Rattle.join_answer.specs.Settled.{Settles};
ghost use Rattle.scene.specs.HouseRules.{zero_real};

use joining::{Scene, SceneRefusal};
use lines::Cursor;
use scene::{Reason, Refusal};

// The length of the accepted text and its counts of primitives and reals.
#[derive(Clone, Copy)]
pub struct Joined {
    pub len: usize,
    pub primitives: usize,
    pub reals: usize,
}

// A refusal, whatever its kind: all that is lent is zeroed.
pub fn refuse<E>(
    records: &mut [u32],
    reals: &mut [f64],
    out: &mut [u8],
    why: E,
) -> Result<Joined, E>
    ensures value { result ≡ Err why }
    ensures records_after { records.new ≡ replicate (length records.old) 0 }
    ensures reals_after { reals.new ≡ replicate (length reals.old) zero_real }
    ensures out_after { out.new ≡ replicate (length out.old) 0 }
{
    table::clear(records, reals);
    out.fill(0);
    Err(why)
}

// An accepted text, whose tables are lent with so many primitives and reals, put into the output.
pub fn settle(
    text: &[u8],
    records: &mut [u32],
    reals: &mut [f64],
    out: &mut [u8],
    count: usize,
    doubles: usize,
) -> Result<Joined, SceneRefusal>
    ensures { Settles text.now records.old reals.old out.old count doubles (answer_of result) records.new reals.new out.new }
{
    let front = Cursor { at: 0, full: false };
    let end = lines::put(out, front, text);
    if end.full {
        let refusal = Refusal {
            reason: Reason::OutputTooSmall,
            place: 0,
        };
        let scene = Scene::None;
        return refuse(records, reals, out, SceneRefusal { scene, refusal });
    }
    let at = end.at;
    writer::clear_from(out, at);
    Ok(Joined {
        len: at,
        primitives: count,
        reals: doubles,
    })
}
