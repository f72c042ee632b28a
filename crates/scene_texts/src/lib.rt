// What the programs over scene texts share: each text that the arguments name, or standard input, is loaded, read into tables of the
// program's own, and answered below its heading. What a program has of its own is its `Program`.
#![tactic(auto)]

ghost use Rattle.std.specs.Prelude.{◌≡◌};
ghost use Rattle.scene.specs.Record.{field_in};
ghost use Rattle.scene.specs.Types.{is_surface};

use input::{LoadError, TOO_LONG};
use output::{ErrorStream, Refused};
use scene::{Mode, Refusal};
use std::io;
use std::rt::{Env, Runtime};
use table::{MOST_BYTES, MOST_NUMBERS, MOST_REALS, MOST_RECORDS};

// The numbers of a table of pairs with room for every record.
pub const PAIRS: usize = 2 * MOST_RECORDS;

// A text that was read: which argument names it, its bytes, and what the reading left. The tables are arrays, so that the compiler knows
// their lengths in what a program does with them.
#[derive(Clone, Copy)]
pub struct Scene<'a> {
    pub mode: Mode,
    pub number: usize,
    pub text: &'a [u8],
    pub records: &'a [u32; MOST_NUMBERS],
    pub reals: &'a [f64; MOST_REALS],
    pub pairs: &'a [u32; PAIRS],
    pub primitives: usize,
    pub doubles: usize,
}

impl Scene<'_> {
    // Whether record n is a surface's.
    pub fn is_surface(&self, n: usize) -> bool
        ensures { result ≡ is_surface (field_in self.now.records.now n 0) }
    {
        let records = self.records;
        kinds::is_surface(table::field(records, n, table::KIND))
    }
}

// What a program does with each text. A trait and no closures: a public function that calls a closure has a `requires`, that it may be
// called, and no public function has one here.
pub trait Program {
    // How it is called.
    const USAGE: &'static [u8];

    // Prints the answer to a text.
    fn answer(&self, rt: &(impl Env + Print + ErrorStream), scene: &Scene<'_>) -> io::Result<()>;

    // Prints that a text is refused.
    fn refuse(
        &self,
        rt: &(impl Env + Print + ErrorStream),
        _number: usize,
        refused: Refused,
    ) -> io::Result<()> {
        output::print_refusal(rt, refused)
    }

    // Prints that a text cannot be read.
    fn pass_over(&self, rt: &(impl Env + Print + ErrorStream), number: usize) -> io::Result<()> {
        input::print_unreadable(rt, number)
    }
}

// Reads a text, and answers or refuses it.
fn read<P: Program>(
    rt: &(impl Env + Print + ErrorStream),
    program: &P,
    mode: Mode,
    number: usize,
    text: &[u8],
) -> io::Result<()> {
    let mut records = [0u32; MOST_NUMBERS];
    let mut reals = [0.0f64; MOST_REALS];
    let mut pairs = [0u32; PAIRS];
    let mut index = [0u32; index::ENTRIES];
    let read = reader::read_indexed(mode, text, &mut records, &mut reals, &mut pairs, &mut index);
    match read.answer {
        Ok(counts) => {
            let scene = Scene {
                mode,
                number,
                text,
                records: &records,
                reals: &reals,
                pairs: &pairs,
                primitives: counts.primitives,
                doubles: counts.reals,
            };
            program.answer(rt, &scene)
        }
        Err(Refusal { reason, place }) => {
            let line = Some(line_numbers::line_at(text, place));
            program.refuse(
                rt,
                number,
                Refused {
                    reason: reason.number(),
                    place,
                    line,
                },
            )
        }
    }
}

// Answers a text, as it was loaded.
pub fn answer<P: Program>(
    rt: &(impl Env + Print + ErrorStream),
    program: &P,
    mode: Mode,
    number: usize,
    loaded: Result<&[u8], LoadError>,
) -> io::Result<()> {
    match loaded {
        Ok(text) => read(rt, program, mode, number, text),
        Err(LoadError::TooLong) => {
            let line = Some(1);
            program.refuse(rt, number, Refused { line, ..TOO_LONG })
        }
        Err(LoadError::Unreadable) => program.pass_over(rt, number),
    }
}

// Answers a text below its heading, where there are several from the first one's number on. One that cannot be read has none.
fn answer_text<P: Program>(
    rt: &(impl Runtime + ErrorStream),
    program: &P,
    mode: Mode,
    first: usize,
    number: usize,
) -> io::Result<()> {
    let mut text = [0u8; MOST_BYTES];
    let loaded = input::load(rt, number, &mut text);
    if loaded != Err(LoadError::Unreadable) {
        input::print_heading_from(rt, first, number)?;
    }
    answer(rt, program, mode, number, loaded.map(|n| &text[..n]))
}

// Answers each text from the first one's number on. Nothing is printed after a write that fails.
fn answer_all<P: Program>(
    rt: &(impl Runtime + ErrorStream),
    program: &P,
    first: usize,
) -> io::Result<()> {
    let mode = input::mode(rt);
    (first..input::end_from(rt, first)).try_for_each(|number| answer_text(
        rt, program, mode, first, number,
    ))
}

// Answers the texts that the arguments name from the first one's number on.
pub fn run_from<P: Program>(rt: &(impl Runtime + ErrorStream), program: &P, first: usize) {
    output::noticed(rt, answer_all(rt, program, first));
}

// Answers the texts that the arguments name, or says how the program is called where there is an option that it does not know.
pub fn run<P: Program>(rt: &(impl Runtime + ErrorStream), program: &P) {
    if input::has_unknown_option(rt) {
        output::print(rt, P::USAGE);
    } else {
        run_from(rt, program, input::first(rt));
    }
}
