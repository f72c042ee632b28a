// What programs print. A function that prints answers what its writes did, so that a caller stops at the first write that fails;
// `noticed` says on standard error why one did.
#![tactic(auto)]

ghost use Rattle.std.specs.Prelude.{◌≡◌, None, is_ok};

use std::io::{Cursor, Stderr, Write};
use std::{fmt, io};

// Standard error as a stream of bytes, which need not be text: a file's name may be none.
pub trait ErrorStream {
    type Stream: Print + Drop;

    fn error_stream(&self) -> Self::Stream;
}

impl ErrorStream for HostRuntime {
    type Stream = Stderr;

    fn error_stream(&self) -> Stderr {
        self.stderr()
    }
}

// Enough for the words of any error, and for the number behind them.
const WORDS: usize = 128;

// Says an error in its words, without the number that the system's have behind them.
fn say(rt: &impl Eprint, error: io::Error) {
    let mut text = Cursor::new([0u8; WORDS]);
    let _ = write!(text, "{error}");
    let bytes = text.into_inner();
    let all = str::from_utf8(&bytes).unwrap_or("").trim_end_matches('\0');
    let words = all
        .split_once(" (os error ")
        .map_or(all, |(words, _)| words);
    let _ = eprintln!(rt; "standard output: {words}");
}

// Takes what a write to standard output answered, and says why it failed if it did.
pub fn noticed(rt: &impl Eprint, written: io::Result<()>) -> bool
    ensures { result ≡ is_ok written }
{
    match written {
        Ok(()) => true,
        Err(error) => {
            say(rt, error);
            false
        }
    }
}

// A `bool` as from `noticed`: an error has been said on standard error, and nothing of it is left for the caller.
pub fn print(rt: &(impl Print + Eprint), text: &[u8]) -> bool {
    noticed(rt, rt.write_all(text))
}

// A refusal as programs print it: the reason's number, the place, and the place's line where it has one in a text.
#[derive(Clone, Copy, PartialEq, Eq, Debug)]
pub struct Refused {
    pub reason: u32,
    pub place: usize,
    pub line: Option<usize>,
}

impl Refused {
    pub fn without_line(reason: u32, place: usize) -> Refused
        ensures { result ≡ record { reason = reason; place = place; line = None } }
    {
        Refused {
            reason,
            place,
            line: None,
        }
    }
}

impl fmt::Display for Refused {
    fn fmt<W: fmt::Write>(&self, f: &mut fmt::Formatter<W>) -> fmt::Result {
        let reason = self.reason;
        let place = self.place;
        write!(f, "refused={reason} place={place}")?;
        match self.line {
            Some(line) => write!(f, " line={line}"),
            None => Ok(()),
        }
    }
}

// The line of a refusal.
pub fn print_refusal(rt: &impl Print, refused: Refused) -> io::Result<()> {
    rt.println(refused)
}

// The same line on standard error.
pub fn say_refusal(rt: &impl ErrorStream, refused: Refused) {
    let _ = rt.error_stream().println(refused);
}
