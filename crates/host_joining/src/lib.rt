// Two hands' edits joined, as host programs are told of it: a number for the kind of answer, and its values in a small array.
#![tactic(auto)]

ghost use Rattle.std.specs.Prelude.{◌≡◌};
ghost use Rattle.host_joining.specs.Host.{HostChecks, HostProposes};
ghost use Rattle.join_answer.specs.Answer.{answer_of, reason_of, scene_number, values_of};

use join_answer::Joined;
use joining::{Scene, SceneRefusal};

// The numbers are those of the calls for C and Rust.
fn scene_number(scene: Scene) -> usize
    ensures { result ≡ scene_number scene }
{
    match scene {
        Scene::None => 0,
        Scene::Base => 1,
        Scene::Left => 2,
        Scene::Right => 3,
        Scene::Joined => 4,
    }
}

// The number and the array are those of the calls for C and Rust (`HostProposes`, `HostChecks`).
// The reason or 0, and the text a refusal names, its place, and the length and counts of an accepted text.
fn tell_answer(joined: Result<Joined, SceneRefusal>, answer: &mut [usize; 5]) -> u32
    ensures value { result ≡ reason_of (answer_of joined) }
    ensures answer_after { answer.new ≡ values_of (answer_of joined) }
{
    match joined {
        Ok(j) => {
            *answer = [0, 0, j.len, j.primitives, j.reals];
            0
        }
        Err(why) => {
            *answer = [scene_number(why.scene), why.refusal.place, 0, 0, 0];
            why.refusal.reason.number()
        }
    }
}

// Proposes a join.
pub fn tell_proposed(
    mode: u32,
    base: &[u8],
    left: &[u8],
    right: &[u8],
    records: &mut [u32],
    reals: &mut [f64],
    out: &mut [u8],
    answer: &mut [usize; 5],
) -> u32
    ensures { HostProposes mode base.now left.now right.now records.old reals.old out.old result answer.new records.new reals.new out.new }
{
    let m = host_reading::mode_of(mode);
    let joined = joiner::propose(m, base, left, right, records, reals, out);
    tell_answer(joined, answer)
}

// Checks a typed join.
pub fn tell_checked(
    mode: u32,
    base: &[u8],
    left: &[u8],
    right: &[u8],
    typed: &[u8],
    records: &mut [u32],
    reals: &mut [f64],
    out: &mut [u8],
    answer: &mut [usize; 5],
) -> u32
    ensures { HostChecks mode base.now left.now right.now typed.now records.old reals.old out.old result answer.new records.new reals.new out.new }
{
    let m = host_reading::mode_of(mode);
    let joined = joiner::check(m, base, left, right, typed, records, reals, out);
    tell_answer(joined, answer)
}
