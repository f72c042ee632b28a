// The parts of a numeral: rows of decimal digits, the sign, the mantissa and the exponent.
#![tactic(auto)]

ghost use Rattle.std.specs.Prelude.{◌≡◌, true, ◌+◌, ◌*◌, ◌-◌, ◌≤◌, min, drop, position};
ghost use Rattle.numeral_parts.specs.Digits.{is_digit};
ghost use Rattle.numeral_parts.specs.Parts.{index_of, is_sign, negative, unsigned};
ghost use Rattle.numeral_parts.specs.Read.{either, exponent_in, mantissa_in};
ghost use Rattle.numeral_parts.specs.Saturated.{limit, saturated};

// The least coefficient that is too large. A larger one is kept as this.
pub const LIMIT: u64 = 1_000_000_000_000_000;

#[tactic(auto, unfolding(crate::specs::Digits::is_digit))]
pub fn is_digit(b: u8) -> bool
    ensures { result ≡ is_digit b }
{
    b.is_ascii_digit()
}

// A number with one digit more.
fn push(n: u64, b: u8) -> u64
    requires { (n ≤ limit) × (is_digit b ≡ true) }
    ensures { result ≡ min limit (n * 10 + (b - 48)) }
{
    (n * 10 + u64::from(b - b'0')).min(LIMIT)
}

// The number that the digits of `word` read as behind those of `n`.
fn digits_from(n: u64, word: &[u8]) -> Option<u64>
    requires { n ≤ limit }
    ensures { result ≡ saturated n word.now }
{
    let mut m = n;
    for &b in word {
        if !is_digit(b) {
            return None;
        }
        m = push(m, b);
    }
    Some(m)
}

// The number that the digits of `word` read as.
pub fn digits_of(word: &[u8]) -> Option<u64>
    ensures { result ≡ saturated 0 word.now }
{
    digits_from(0, word)
}

// The coefficient, kept at the limit, and how many of its digits stand behind the point.
#[derive(Clone, Copy, PartialEq, Eq, Debug)]
pub struct Mantissa {
    pub coefficient: u64,
    pub after: u64,
}

// So many powers of ten up or down.
#[derive(Clone, Copy, PartialEq, Eq, Debug)]
pub enum Exponent {
    Up(u64),
    Down(u64),
}

pub fn is_negative(word: &[u8]) -> bool
    ensures { result ≡ negative word.now }
{
    word.first() == Some(&b'-')
}

#[tactic(auto, unfolding(crate::specs::Parts::is_sign))]
fn is_sign(b: u8) -> bool
    ensures { result ≡ is_sign b }
{
    matches!(b, b'+' | b'-')
}

// The word without its sign, if it has one.
pub fn unsigned(word: &[u8]) -> &[u8]
    ensures { result.now ≡ unsigned word.now }
{
    match word {
        [] => word,
        [first, rest @ ..] => if is_sign(*first) { rest } else { word },
    }
}

// The index of the first byte that is x or y, if there is one.
fn find(word: &[u8], x: u8, y: u8) -> Option<usize>
    ensures { result ≡ position (either x y) word.now }
{
    word.iter().position(|&b| b == x || b == y)
}

// The same, or the word's length.
pub fn index_of(word: &[u8], x: u8, y: u8) -> usize
    ensures { result ≡ index_of (either x y) word.now }
{
    find(word, x, y).unwrap_or(word.len())
}

// The bytes behind an index.
fn behind(word: &[u8], at: usize) -> &[u8]
    ensures { result.now ≡ drop (at + 1) word.now }
{
    if at < word.len() {
        &word[at + 1..]
    } else {
        &[]
    }
}

// What stands before the exponent's mark.
pub fn read_mantissa(word: &[u8]) -> Option<Mantissa>
    ensures { result ≡ mantissa_in word.now }
{
    let point = index_of(word, b'.', b'.');
    let fraction = behind(word, point);
    if point + fraction.len() == 0 {
        return None;
    }
    let whole = digits_from(0, &word[..point])?;
    let coefficient = digits_from(whole, fraction)?;
    Some(Mantissa {
        coefficient,
        after: fraction.len() as u64,
    })
}

// What stands behind the exponent's mark.
pub fn read_exponent(word: &[u8]) -> Option<Exponent>
    ensures { result ≡ exponent_in word.now }
{
    let digits = unsigned(word);
    if digits.is_empty() {
        return None;
    }
    if 3 < digits.len() {
        return None;
    }
    let size = digits_from(0, digits)?;
    if is_negative(word) {
        Some(Exponent::Down(size))
    } else {
        Some(Exponent::Up(size))
    }
}
