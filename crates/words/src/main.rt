// Each word of standard input with its place in bytes, a line each. It knows blanks only: a comment's words are words too.
#![tactic(auto)]

use lexer::Word;
use std::io;

fn print_word(rt: &impl Print, text: &[u8], word: Word) -> io::Result<()> {
    print!(rt; "place={} word=", word.place)?;
    rt.write_all(lexer::part(text, word.place, word.len))?;
    rt.write_all(b"\n")
}

fn print_words(rt: &impl Print, text: &[u8]) -> io::Result<()> {
    word_reader::new(text).try_for_each(|word| print_word(rt, text, word))
}

fn main(rt: HostRuntime) {
    let mut text = [0u8; table::MOST_BYTES];
    let written = match input::load_standard(&rt, &mut text) {
        Ok(n) => print_words(&rt, &text[..n]),
        Err(error) => rt.println(error),
    };
    output::noticed(&rt, written);
}
