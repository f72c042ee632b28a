// Counts and numerals.
#![tactic(auto)]

mod double;

ghost use Rattle.std.specs.Prelude.{◌≡◌, ◌^◌, ◌<◌};
ghost use Rattle.laws.specs.Bytes.{part};
ghost use Rattle.numeral.specs.Count.{counted, count_of};
ghost use Rattle.numeral.specs.Exactly.{Exactly};
ghost use Rattle.numeral.specs.Numeral.{answer_of, numeral_of, reason};
ghost use Rattle.numeral.specs.Powered.{powered_by};
ghost use Rattle.numeral_parts.specs.Read.{exponent_in};

pub use double::Decimal;
use numeral_parts::{Exponent, Mantissa};

// Why a word stands for no number.
#[derive(Clone, Copy, PartialEq, Eq, Debug)]
pub enum NumeralError {
    Malformed,
    TooLarge,
}

// Document 01's number of an answer: 0 for a value, else the reason for refusing.
pub fn reason(n: Result<f64, NumeralError>) -> u32
    ensures { result ≡ reason (answer_of n) }
{
    match n {
        Ok(_) => 0,
        Err(NumeralError::Malformed) => 14,
        Err(NumeralError::TooLarge) => 15,
    }
}

// The count that a word is.
pub fn count_of(word: &[u8]) -> Option<u32>
    ensures { counted result ≡ count_of word.now }
{
    if word.is_empty() {
        return None;
    }
    if 5 < word.len() {
        return None;
    }
    let n = numeral_parts::digits_of(word)?;
    Some(n as u32)
}

// The count in a part of a text; of a part that runs past the text's end, in what is there.
pub fn count_at(text: &[u8], place: usize, len: usize) -> Option<u32>
    ensures { counted result ≡ count_of (part text.now place len) }
{
    count_of(lexer::part(text, place, len))
}

// The numeral that a word is.
pub fn numeral_of(word: &[u8]) -> Result<f64, NumeralError>
    ensures { answer_of result ≡ numeral_of word.now }
{
    let negative = numeral_parts::is_negative(word);
    let body = numeral_parts::unsigned(word);
    let mark = numeral_parts::index_of(body, b'e', b'E');
    let Some(mantissa) = numeral_parts::read_mantissa(&body[..mark]) else {
        return Err(NumeralError::Malformed);
    };
    if mark < body.len() {
        powered(negative, mantissa, &body[mark + 1..])
    } else {
        let number = Decimal {
            negative,
            coefficient: mantissa.coefficient,
            up: 0,
            down: mantissa.after,
        };
        number.nearest()
    }
}

// A mantissa's value with the exponent that `word` is.
fn powered(negative: bool, m: Mantissa, word: &[u8]) -> Result<f64, NumeralError>
    requires { m.after < 2 ^ 63 }
    ensures { answer_of result ≡ powered_by negative m.coefficient m.after (exponent_in word.now) }
{
    let Mantissa { coefficient, after } = m;
    match numeral_parts::read_exponent(word) {
        None => Err(NumeralError::Malformed),
        Some(Exponent::Up(n)) => {
            let number = Decimal {
                negative,
                coefficient,
                up: n,
                down: after,
            };
            number.nearest()
        }
        Some(Exponent::Down(n)) => {
            let number = Decimal {
                negative,
                coefficient,
                up: 0,
                down: after + n,
            };
            number.nearest()
        }
    }
}

// c times 10 to the power up less down, where c is below the limit and the power from -22 to 22.
pub fn exact(negative: bool, c: u64, up: u64, down: u64) -> Option<f64>
    ensures { Exactly negative c up down result }
{
    let number = Decimal {
        negative,
        coefficient: c,
        up,
        down,
    };
    number.exact()
}

// The numeral in a part of a text; of a part that runs past the text's end, in what is there.
pub fn numeral_at(text: &[u8], place: usize, len: usize) -> Result<f64, NumeralError>
    ensures { answer_of result ≡ numeral_of (part text.now place len) }
{
    numeral_of(lexer::part(text, place, len))
}
