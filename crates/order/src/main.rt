// Whether the order of two entries of a scene mattered, by the numbers that `list` prints; with no numbers, the names that are given more
// than once, with their definitions and which entries use which.
#![tactic(auto)]

use output::ErrorStream;
use scene::Reason;
use scene_texts::{Program, Scene};
use std::io;
use std::rt::{Env, Runtime};
use table::{MOST_BYTES, NEXT};

// Enough for the line of a pair: three numbers of 20 digits at most, a name of 64, and 40 more.
const PAIR: usize = 192;

// Enough for the line of a name: 1,024 definitions with a number and a line of at most 5 digits and 16 more, each of 1,024 entries twice
// with a comma, and a name of 64 with 6 more.
const NAME: usize = 40960;

#[inline(always)]
fn print_pair(rt: &impl Print, scene: &Scene<'_>, a: usize, b: usize) -> io::Result<()> {
    let mut line = [0u8; PAIR];
    let records = scene.records;
    let order = precedence::mattered(scene.text, records, scene.primitives, a, b).map_err(
        Reason::number,
    );
    let end = order_listing::pair_line(&mut line, scene.text, records, a.min(b), a.max(b), order);
    rt.write_all(lexer::part(&line, 0, end.at))
}

// Whether n is the first of two or more definitions of a name: an entry below gives its name anew, and none above gives it.
fn is_first(records: &[u32], n: usize) -> bool {
    table::field(records, n, NEXT) != 0
        && !(0..n).any(|m| table::field(records, m, NEXT) as usize == n)
}

// The line of a name that is given more than once, at its first definition.
fn print_name(rt: &impl Print, scene: &Scene<'_>, n: usize) -> io::Result<()> {
    let mut line = [0u8; NAME];
    let records = scene.records;
    let end = name_listing::name_line(&mut line, scene.text, records, scene.primitives, n);
    rt.write_all(lexer::part(&line, 0, end.at))
}

// What is asked of a text: a pair of numbers, or its names.
#[derive(Clone, Copy)]
enum Asked {
    Pair(usize, usize),
    Names,
}

impl Program for Asked {
    const USAGE: &'static [u8] = b"usage: order [--archive] FILE [NUMBER NUMBER]\n";

    #[inline(always)]
    fn answer(&self, rt: &(impl Env + Print + ErrorStream), scene: &Scene<'_>) -> io::Result<()> {
        match *self {
            Asked::Pair(a, b) => print_pair(rt, scene, a, b),
            Asked::Names => {
                let records = scene.records;
                (1..=scene.primitives)
                    .filter(|&n| is_first(records, n))
                    .try_for_each(|n| print_name(rt, scene, n))
            }
        }
    }
}

// The number that an argument is. One too long for the buffer is no number.
fn number_at(rt: &impl Env, argument: usize) -> Option<usize> {
    let mut word = [0u8; 6];
    let n = input::arg(rt, argument, &mut word);
    numeral::count_of(&word[..n]).map(|count| count as usize)
}

// Behind the file stand two numbers or nothing.
fn asked_for(rt: &impl Env) -> Option<Asked> {
    if input::has_unknown_option(rt) {
        return None;
    }
    let first = input::first(rt);
    match input::arg_count(rt).saturating_sub(first) {
        1 => Some(Asked::Names),
        3 => Some(Asked::Pair(number_at(rt, first + 1)?, number_at(rt, first + 2)?)),
        _ => None,
    }
}

fn answer_file(rt: &(impl Runtime + ErrorStream), asked: Asked) -> io::Result<()> {
    let number = input::first(rt);
    let mut text = [0u8; MOST_BYTES];
    let loaded = input::load_argument(rt, number, &mut text);
    scene_texts::answer(
        rt,
        &asked,
        input::mode(rt),
        number,
        loaded.map(|n| &text[..n]),
    )
}

fn main(rt: HostRuntime) {
    match asked_for(&rt) {
        Some(asked) => output::noticed(&rt, answer_file(&rt, asked)),
        None => output::print(&rt, Asked::USAGE),
    };
}
