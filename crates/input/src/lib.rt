// The texts that a program is asked about: the files that its arguments name, or standard input where there are none. A text
// goes by its argument's number; standard input has the number that a first file would have.
#![tactic(auto)]

ghost use Rattle.std.specs.Prelude.{◌≤◌, length, IfOk};

use output::{ErrorStream, Refused};
use scene::{Mode, Reason};
use std::env::FillError;
use std::error::Error;
use std::fs::File;
use std::io::Read;
use std::rt::{Env, Files};
use std::{fmt, io};

// Why a text has no bytes in the buffer.
#[derive(Clone, Copy, PartialEq, Eq, Debug)]
pub enum LoadError {
    TooLong,
    Unreadable,
}

// What is said of standard input. A text that is too long is refused as the reader would, but has no line.
impl fmt::Display for LoadError {
    fn fmt<W: fmt::Write>(&self, f: &mut fmt::Formatter<W>) -> fmt::Result {
        match self {
            LoadError::TooLong => TOO_LONG.fmt(f),
            LoadError::Unreadable => write!(f, "unreadable"),
        }
    }
}

impl Error for LoadError {}

// The refusal of a text that is too long, as the reader gives it.
pub const TOO_LONG: Refused = Refused {
    reason: Reason::TextTooLong as u32,
    place: 0,
    line: None,
};

// Enough for any path.
pub const PATH: usize = 4096;

// Reads until the buffer is full, the input ends or a read fails, and answers how many bytes it put at the buffer's start.
pub fn read_full(from: &mut impl Read, bytes: &mut [u8]) -> usize
    ensures { result ≤ length bytes.new }
{
    let mut done = 0;
    while done < bytes.len() {
        match from.read(&mut bytes[done..]) {
            Ok(0) => return done,
            Ok(n) => done += n,
            Err(_) => return done,
        }
    }
    done
}

// Reads an open file up to its end, which has to be seen: a text that a failed read cut short is none. One byte past the
// buffer tells a text that is too long from one that just fits.
fn load_from(from: &mut impl Read, text: &mut [u8]) -> Result<usize, LoadError>
    ensures { IfOk result (λ n. n ≤ length text.new) }
{
    let n = read_full(from, text);
    let mut more = [0u8; 1];
    match from.read(&mut more) {
        Ok(0) => Ok(n),
        Ok(_) if n == text.len() => Err(LoadError::TooLong),
        _ => Err(LoadError::Unreadable),
    }
}

// How many bytes of the buffer the text of standard input has.
pub fn load_standard(rt: &impl Input, text: &mut [u8]) -> Result<usize, LoadError>
    ensures { IfOk result (λ n. n ≤ length text.new) }
{
    load_from(&mut rt.reader(), text)
}

// Whether there is an argument of this number. The program's own name has the number 0.
fn has_argument(rt: &impl Env, number: usize) -> bool {
    let mut first = [0u8; 1];
    !matches!(rt.arg(number, &mut first), Err(FillError::NotPresent))
}

// How many arguments there are, the program's own name among them.
pub fn arg_count(rt: &impl Env) -> usize {
    (0..usize::MAX)
        .find(|&number| !has_argument(rt, number))
        .unwrap_or(usize::MAX)
}

// Puts an argument at the start of a buffer, and answers its length: 0 for one that does not fit, and where there is none.
pub fn arg(rt: &impl Env, number: usize, bytes: &mut [u8]) -> usize
    ensures { result ≤ length bytes.new }
{
    rt.arg(number, bytes).unwrap_or(0)
}

// Writes an argument, which need not be text.
pub fn write_arg(rt: &impl Env, to: &impl Print, number: usize) -> io::Result<()> {
    let mut bytes = [0u8; PATH];
    let n = arg(rt, number, &mut bytes);
    to.write_all(&bytes[..n])
}

// Reads the file that an argument names, and answers how many bytes of the buffer its text has. A name too long for a path counts as
// empty, which is the name of no file. A path is text: a name that is none is the name of no file either.
pub fn load_argument(
    rt: &(impl Env + Files),
    argument: usize,
    text: &mut [u8],
) -> Result<usize, LoadError>
    ensures { IfOk result (λ n. n ≤ length text.new) }
{
    let mut path = [0u8; PATH];
    let n = arg(rt, argument, &mut path);
    let Ok(path) = str::from_utf8(&path[..n]) else {
        return Err(LoadError::Unreadable);
    };
    match File::open(rt, path) {
        Ok(mut file) => load_from(&mut file, text),
        Err(_) => Err(LoadError::Unreadable),
    }
}

// Whether an argument is a word of at most nine bytes.
pub fn is_word(rt: &impl Env, argument: usize, word: &[u8]) -> bool {
    let mut bytes = [0u8; 9];
    let n = arg(rt, argument, &mut bytes);
    &bytes[..n] == word
}

// Whether the first argument asks for the archive reading.
fn has_archive(rt: &impl Env) -> bool {
    is_word(rt, 1, b"--archive")
}

// How the texts are to be read.
pub fn mode(rt: &impl Env) -> Mode {
    if has_archive(rt) {
        Mode::Archive
    } else {
        Mode::New
    }
}

// The first text.
pub fn first(rt: &impl Env) -> usize
    ensures { result ≤ 2 }
{
    if has_archive(rt) { 2 } else { 1 }
}

// The number behind the last text's, where the first one has a number of at most 3.
pub fn end_from(rt: &impl Env, first: usize) -> usize
    ensures { 1 ≤ result }
{
    arg_count(rt).max(first.min(3) + 1)
}

// The number behind the last text's.
pub fn end(rt: &impl Env) -> usize
    ensures { 1 ≤ result }
{
    end_from(rt, first(rt))
}

fn is_standard(rt: &impl Env, number: usize) -> bool {
    !has_argument(rt, number)
}

// How many bytes of the buffer a text has.
pub fn load(
    rt: &(impl Env + Files + Input),
    number: usize,
    text: &mut [u8],
) -> Result<usize, LoadError>
    ensures { IfOk result (λ n. n ≤ length text.new) }
{
    if is_standard(rt, number) {
        return load_standard(rt, text);
    }
    load_argument(rt, number, text)
}

// One byte is enough: an argument that does not fit leaves its first bytes.
fn is_option(rt: &impl Env, argument: usize) -> bool {
    let mut first = [0u8; 1];
    arg(rt, argument, &mut first);
    first[0] == b'-'
}

// Whether an argument is an option, other than a first one that programs know.
pub fn has_unknown_option(rt: &impl Env) -> bool {
    (first(rt)..arg_count(rt)).any(|argument| is_option(rt, argument))
}

// Writes which file a text is from, and what stands behind its name; nothing for standard input.
fn write_name(rt: &impl Env, to: &impl Print, number: usize, behind: &[u8]) -> io::Result<()> {
    if is_standard(rt, number) {
        return Ok(());
    }
    to.write_all(b"scene=")?;
    write_arg(rt, to, number)?;
    to.write_all(behind)
}

// The line above what is printed of a text, where there are several behind the first.
pub fn print_heading_from(rt: &(impl Env + Print), first: usize, number: usize) -> io::Result<()> {
    if !has_argument(rt, first.min(3) + 1) {
        return Ok(());
    }
    write_name(rt, rt, number, b"\n")
}

pub fn print_heading(rt: &(impl Env + Print), number: usize) -> io::Result<()> {
    print_heading_from(rt, first(rt), number)
}

// The line of a text that cannot be read, with a file's name in it.
fn write_unreadable(rt: &impl Env, to: &impl Print, number: usize) -> io::Result<()> {
    write_name(rt, to, number, b" ")?;
    to.println(LoadError::Unreadable)
}

// That line. It has no heading.
pub fn print_unreadable(rt: &(impl Env + Print), number: usize) -> io::Result<()> {
    write_unreadable(rt, rt, number)
}

// A refusal on standard output and, with a file's name, on standard error too, for a program whose output is taken for a scene.
pub fn refuse(
    rt: &(impl Env + Print + ErrorStream),
    number: usize,
    refused: Refused,
) -> io::Result<()> {
    let _ = write_name(rt, &rt.error_stream(), number, b" ");
    output::say_refusal(rt, refused);
    output::print_refusal(rt, refused)
}

// What cannot be read, said on both likewise.
pub fn pass_over(rt: &(impl Env + Print + ErrorStream), number: usize) -> io::Result<()> {
    let _ = write_unreadable(rt, &rt.error_stream(), number);
    print_unreadable(rt, number)
}
