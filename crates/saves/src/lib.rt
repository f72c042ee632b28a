// Two saves of a scene, read from files, compared, and reported. A save that is refused or cannot be read gives one line, the
// left one first. Each function that prints answers what its writes did.
#![tactic(auto)]

ghost use Rattle.std.specs.Prelude.{◌≤◌, length};

use content::Scene;
use input::LoadError;
use ordered::OrderedScene;
use pair::{Side, SideRefusal};
use scene::{Mode, Reason};
use std::io;
use std::rt::{Env, Files};
use table::{MOST_BYTES, MOST_NUMBERS, MOST_REALS, MOST_RECORDS, WIDTH, first_records};

// As many entries as the order of a scene has at most: two for each record.
const MOST_ENTRIES: usize = 2 * MOST_RECORDS;

// Puts the names of a scene in order, in a table's first entries, and answers how many these are: two for each record.
fn order_names(scene: Scene<'_>, table: &mut [u32], scratch: &mut [u32]) -> usize
    ensures { result ≤ length table.new }
{
    let end = (2 * (scene.records.len() / WIDTH)).min(table.len());
    ranks::order_names(scene.text, scene.records, &mut table[..end], scratch);
    end
}

// Puts the names of both scenes in order, and prints the lines.
fn print_lines(rt: &impl Print, left: Scene<'_>, right: Scene<'_>) -> io::Result<()> {
    let mut left_order = [0u32; MOST_ENTRIES];
    let mut right_order = [0u32; MOST_ENTRIES];
    let mut scratch = [0u32; MOST_RECORDS];
    let left_end = order_names(left, &mut left_order, &mut scratch);
    let right_end = order_names(right, &mut right_order, &mut scratch);
    report::print_lines(
        rt,
        OrderedScene {
            scene: left,
            order: &left_order[..left_end],
        },
        OrderedScene {
            scene: right,
            order: &right_order[..right_end],
        },
    )
}

// Compares two texts, and prints the lines or the refusal.
fn compare(rt: &impl Print, mode: Mode, left: &[u8], right: &[u8]) -> io::Result<()> {
    let mut left_records = [0u32; MOST_NUMBERS];
    let mut left_reals = [0.0f64; MOST_REALS];
    let mut right_records = [0u32; MOST_NUMBERS];
    let mut right_reals = [0.0f64; MOST_REALS];
    match pair::read_both(
        mode,
        left,
        &mut left_records,
        &mut left_reals,
        right,
        &mut right_records,
        &mut right_reals,
    ) {
        Ok(counts) => print_lines(
            rt,
            Scene {
                text: left,
                records: first_records(&left_records, counts.left.primitives),
                reals: &left_reals,
            },
            Scene {
                text: right,
                records: first_records(&right_records, counts.right.primitives),
                reals: &right_reals,
            },
        ),
        Err(SideRefusal { side, refusal }) => {
            report::print_refusal(rt, side, refusal.reason.number(), refusal.place)
        }
    }
}

// Prints why a save could not be loaded. One that is too long is refused as the reader would.
fn print_load_error(rt: &impl Print, side: Side, error: LoadError) -> io::Result<()> {
    match error {
        LoadError::TooLong => report::print_refusal(rt, side, Reason::TextTooLong.number(), 0),
        LoadError::Unreadable => report::print_unreadable(rt, side),
    }
}

// Prints why the right save could not be loaded, or the left text's refusal, which comes first.
fn print_right_error(rt: &impl Print, mode: Mode, left: &[u8], error: LoadError) -> io::Result<()> {
    let mut records = [0u32; MOST_NUMBERS];
    let mut reals = [0.0f64; MOST_REALS];
    match reader::read_with_own_tables(mode, left, &mut records, &mut reals) {
        Ok(_) => print_load_error(rt, Side::Right, error),
        Err(refusal) => report::print_refusal(
            rt,
            Side::Left,
            refusal.reason.number(),
            refusal.place,
        ),
    }
}

// Compares a text with the file that an argument names.
fn compare_with_right(
    rt: &(impl Env + Files + Print),
    mode: Mode,
    left: &[u8],
    argument: usize,
) -> io::Result<()> {
    let mut right = [0u8; MOST_BYTES];
    match input::load_argument(rt, argument, &mut right) {
        Ok(n) => compare(rt, mode, left, &right[..n]),
        Err(error) => print_right_error(rt, mode, left, error),
    }
}

// Compares the files that two arguments name, both read in one mode.
pub fn compare_arguments(
    rt: &(impl Env + Files + Print),
    mode: Mode,
    left_argument: usize,
    right_argument: usize,
) -> io::Result<()> {
    let mut left = [0u8; MOST_BYTES];
    match input::load_argument(rt, left_argument, &mut left) {
        Ok(n) => compare_with_right(rt, mode, &left[..n], right_argument),
        Err(error) => print_load_error(rt, Side::Left, error),
    }
}
