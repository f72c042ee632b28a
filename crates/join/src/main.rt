// Joins two hands' edits of a base, the files that three arguments name; or checks a fourth as a join of these. A refusal is said on
// standard error too, as what is printed may be taken for a scene.
#![tactic(auto)]

use input::LoadError;
use joining::{Choice, Scene, SceneRefusal};
use output::{ErrorStream, Refused};
use scene::{Mode, Reason};
use std::io;
use std::rt::{Env, Files};
use table::{MOST_BYTES, MOST_NUMBERS, MOST_REALS, MOST_RECORDS};

// One byte more than a text may have: a text that is too long fills the room, and its reading refuses it.
const ROOM: usize = MOST_BYTES + 1;

// The base and both hands' texts, and how they are read.
#[derive(Clone, Copy)]
struct Texts<'a> {
    mode: Mode,
    base: &'a [u8],
    left: &'a [u8],
    right: &'a [u8],
}

// Where the name of each record stands in another text, and whether it is defined alike there.
fn matches_in(scene: content::Scene<'_>, other: content::Scene<'_>) -> [usize; MOST_RECORDS] {
    let mut matches = [0usize; MOST_RECORDS];
    matching::match_all(scene, other, &mut matches);
    matches
}

fn name_of<'a>(scene: content::Scene<'a>, n: usize) -> &'a [u8] {
    table::name_of(scene.text, scene.records, n)
}

// Reads a text into tables. One that is refused has no records.
fn read<'a>(
    mode: Mode,
    text: &'a [u8],
    records: &'a mut [u32],
    reals: &'a mut [f64],
) -> content::Scene<'a> {
    let count = match reader::read_with_own_tables(mode, text, records, reals) {
        Ok(counts) => counts.primitives,
        Err(_) => 0,
    };
    content::Scene {
        text,
        records: table::first_records(records, count),
        reals,
    }
}

// The name that both hands changed differently: left's first, or else right's. Behind a hand's last record there is no name to clash.
fn clashing_name<'a>(
    base: content::Scene<'a>,
    left: content::Scene<'a>,
    right: content::Scene<'a>,
) -> &'a [u8] {
    let left_right = matches_in(left, right);
    let left_base = matches_in(left, base);
    let right_left = matches_in(right, left);
    let right_base = matches_in(right, base);
    let of_left = (1..=MOST_RECORDS).find(|&n| {
        let choice = picking::choice_left(&left_right, &left_base, &right_base, n);
        matches!(choice, Choice::Clash)
    });
    if let Some(n) = of_left {
        return name_of(left, n);
    }
    let of_right = (1..=MOST_RECORDS).find(|&n| {
        let choice = picking::choice_right(&left_right, &left_base, &right_left, &right_base, n);
        matches!(choice, Choice::Clash)
    });
    of_right.map_or(b"", |n| name_of(right, n))
}

fn write_clash(to: &impl Print, texts: &Texts<'_>) -> io::Result<()> {
    let mut base_records = [0u32; MOST_NUMBERS];
    let mut base_reals = [0.0f64; MOST_REALS];
    let mut left_records = [0u32; MOST_NUMBERS];
    let mut left_reals = [0.0f64; MOST_REALS];
    let mut right_records = [0u32; MOST_NUMBERS];
    let mut right_reals = [0.0f64; MOST_REALS];
    let base = read(texts.mode, texts.base, &mut base_records, &mut base_reals);
    let left = read(texts.mode, texts.left, &mut left_records, &mut left_reals);
    let right = read(
        texts.mode,
        texts.right,
        &mut right_records,
        &mut right_reals,
    );
    to.write_all(b" name=")?;
    to.write_all(clashing_name(base, left, right))
}

// The line of a refusal, behind the field that names its text. Where both hands changed a name differently, it is told.
fn write_refusal(
    to: &impl Print,
    texts: &Texts<'_>,
    scene: &str,
    refused: Refused,
) -> io::Result<()> {
    print!(to; "{scene}{refused}")?;
    if refused.reason == Reason::ChangedByBoth.number() {
        write_clash(to, texts)?;
    }
    to.write_all(b"\n")
}

// That line, on standard error and on standard output.
fn refuse(
    rt: &(impl Print + ErrorStream),
    texts: &Texts<'_>,
    scene: &str,
    refused: Refused,
) -> io::Result<()> {
    let _ = write_refusal(&rt.error_stream(), texts, scene, refused);
    write_refusal(rt, texts, scene, refused)
}

// A refusal's first field; `fourth` is that of a joined or a typed text.
fn scene_field(scene: Scene, fourth: &'static str) -> &'static str {
    match scene {
        Scene::None => "",
        Scene::Base => "scene=base ",
        Scene::Left => "scene=left ",
        Scene::Right => "scene=right ",
        Scene::Joined => fourth,
    }
}

fn join(rt: &(impl Print + ErrorStream), texts: &Texts<'_>) -> io::Result<()> {
    let mut records = [0u32; MOST_NUMBERS];
    let mut reals = [0.0f64; MOST_REALS];
    let mut out = [0u8; MOST_BYTES];
    match joiner::propose(
        texts.mode,
        texts.base,
        texts.left,
        texts.right,
        &mut records,
        &mut reals,
        &mut out,
    ) {
        Ok(joined) => rt.write_all(lexer::part(&out, 0, joined.len)),
        Err(SceneRefusal { scene, refusal }) => {
            let refused = Refused::without_line(refusal.reason.number(), refusal.place);
            refuse(rt, texts, scene_field(scene, "scene=joined "), refused)
        }
    }
}

// Apart from `join`: the call differs, and so does what is printed of a text that is accepted.
fn check(rt: &(impl Print + ErrorStream), texts: &Texts<'_>, typed: &[u8]) -> io::Result<()> {
    let mut records = [0u32; MOST_NUMBERS];
    let mut reals = [0.0f64; MOST_REALS];
    let mut out = [0u8; MOST_BYTES];
    match joiner::check(
        texts.mode,
        texts.base,
        texts.left,
        texts.right,
        typed,
        &mut records,
        &mut reals,
        &mut out,
    ) {
        Ok(joined) => {
            let count = joined.primitives;
            let doubles = joined.reals;
            println!(rt; "joined primitives={count} reals={doubles}")
        }
        Err(SceneRefusal { scene, refusal }) => {
            let refused = Refused::without_line(refusal.reason.number(), refusal.place);
            refuse(rt, texts, scene_field(scene, "scene=typed "), refused)
        }
    }
}

// The text of a file, in the room for it; none where it cannot be read.
fn load<'a>(rt: &(impl Env + Files), argument: usize, room: &'a mut [u8]) -> Option<&'a [u8]> {
    match input::load_argument(rt, argument, room) {
        Ok(n) => Some(&room[..n]),
        Err(LoadError::TooLong) => Some(room),
        Err(LoadError::Unreadable) => None,
    }
}

fn print_unreadable(rt: &(impl Print + ErrorStream), scene: &str) -> io::Result<()> {
    let _ = println!(&rt.error_stream(); "scene={scene} unreadable");
    println!(rt; "scene={scene} unreadable")
}

// Joins the texts, or checks one that stands behind them. All are loaded before any is read.
fn run(rt: &(impl Env + Files + Print + ErrorStream)) -> io::Result<()> {
    let mode = input::mode(rt);
    let first = input::first(rt);
    let mut base = [0u8; ROOM];
    let mut left = [0u8; ROOM];
    let mut right = [0u8; ROOM];
    let mut typed = [0u8; ROOM];
    let Some(base) = load(rt, first, &mut base) else {
        return print_unreadable(rt, "base");
    };
    let Some(left) = load(rt, first + 1, &mut left) else {
        return print_unreadable(rt, "left");
    };
    let Some(right) = load(rt, first + 2, &mut right) else {
        return print_unreadable(rt, "right");
    };
    let texts = Texts {
        mode,
        base,
        left,
        right,
    };
    if input::arg_count(rt) <= first + 3 {
        return join(rt, &texts);
    }
    let Some(typed) = load(rt, first + 3, &mut typed) else {
        return print_unreadable(rt, "typed");
    };
    check(rt, &texts, typed)
}

fn main(rt: HostRuntime) {
    let first = input::first(&rt);
    let count = input::arg_count(&rt);
    if count < first + 3 || first + 4 < count || input::has_unknown_option(&rt) {
        output::print(&rt, b"usage: join [--archive] BASE LEFT RIGHT [TYPED]\n");
        return;
    }
    output::noticed(&rt, run(&rt));
}
