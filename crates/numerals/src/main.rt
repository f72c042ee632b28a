// Each word of standard input as a numeral: the number of its answer, and its value's bits in hex.
#![tactic(auto)]

use lexer::Word;
use std::io;

// A line for a word. The answer with a value has the number 0.
fn print_numeral(rt: &impl Print, text: &[u8], word: Word) -> io::Result<()> {
    let n = numeral::numeral_at(text, word.place, word.len);
    if let Ok(x) = n {
        let bits = f64::to_bits(x);
        return println!(rt; "0 {bits:016x}");
    }
    rt.println(numeral::reason(n))
}

fn print_numerals(rt: &impl Print, text: &[u8]) -> io::Result<()> {
    word_reader::new(text).try_for_each(|word| print_numeral(rt, text, word))
}

fn main(rt: HostRuntime) {
    let mut text = [0u8; table::MOST_BYTES];
    let written = match input::load_standard(&rt, &mut text) {
        Ok(n) => print_numerals(&rt, &text[..n]),
        Err(error) => rt.println(error),
    };
    output::noticed(&rt, written);
}
