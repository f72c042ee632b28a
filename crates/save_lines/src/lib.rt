// The lines that a comparison of two saves prints, put into a lent buffer: as much of each as the buffer holds. Each function
// answers how many bytes that is.
#![tactic(auto)]

ghost use Rattle.std.specs.Prelude.{◌≡◌, min, length};
ghost use Rattle.buffer.specs.Put.{put, behind};
ghost use Rattle.save_lines.specs.Lines.{key_line, refusal_line, scene_field, state_field, unreadable_line};

use buffer::{put_bytes, put_field};
use comparison::State;
use fields::{put_last, put_text};
use pair::Side;

// The last field of a key's line.
fn put_state(out: &mut [u8], at: usize, state: State) -> usize
    ensures out_after { out.new ≡ put out.old at (state_field state) }
    ensures value { result ≡ behind out.old at (state_field state) }
{
    match state {
        State::OnlyLeft => put_bytes(out, at, b" state=left\n"),
        State::OnlyRight => put_bytes(out, at, b" state=right\n"),
        State::Changed => put_bytes(out, at, b" state=changed\n"),
    }
}

// The first field of a line about a whole scene.
fn put_scene(out: &mut [u8], side: Side) -> usize
    ensures out_after { out.new ≡ put out.old 0 (scene_field side) }
    ensures value { result ≡ behind out.old 0 (scene_field side) }
{
    match side {
        Side::Left => put_bytes(out, 0, b"scene=left"),
        Side::Right => put_bytes(out, 0, b"scene=right"),
    }
}

// The line of a key: its name, which definition of that name it is, and its state.
pub fn key_line(out: &mut [u8], name: &[u8], nth: usize, state: State) -> usize
    ensures out_after { out.new ≡ put out.old 0 (key_line name.now nth state) }
    ensures value { result ≡ min (length (key_line name.now nth state)) (length out.old) }
{
    let mut at = put_text(out, 0, b"name=", name);
    at = put_field(out, at, b" nth=", nth);
    put_state(out, at, state)
}

// The line of a scene that is refused.
pub fn refusal_line(out: &mut [u8], side: Side, reason: u32, place: usize) -> usize
    ensures out_after { out.new ≡ put out.old 0 (refusal_line side reason place) }
    ensures value { result ≡ min (length (refusal_line side reason place)) (length out.old) }
{
    let mut at = put_scene(out, side);
    at = put_field(out, at, b" refused=", reason as usize);
    put_last(out, at, b" place=", place)
}

// The line of a scene that cannot be read.
pub fn unreadable_line(out: &mut [u8], side: Side) -> usize
    ensures out_after { out.new ≡ put out.old 0 (unreadable_line side) }
    ensures value { result ≡ min (length (unreadable_line side)) (length out.old) }
{
    let at = put_scene(out, side);
    put_bytes(out, at, b" unreadable\n")
}
