// The root of a double from its bit pattern, one binary digit at a time, by shifts, sums and differences of whole numbers.
#![tactic(auto)]

ghost use Rattle.std.specs.Prelude.{cond, false, ◌≡◌, ◌+◌, ◌*◌, ◌^◌, ◌<◌, ◌≤◌, T, leb};
ghost use Rattle.std.specs.Float.Ieee.{odd};
ghost use Rattle.std.specs.Float.Ieee.Positive.{positive};
ghost use Rattle.root.specs.Digits.{Found, OneMore};
ghost use Rattle.root.specs.Root.{root_of, root_units, whole_root};

// The root's digits so far and how many they are, what is left of the digits brought down, and those still to bring down.
#[derive(Clone, Copy)]
struct Digits {
    root: u64,
    found: u64,
    rest: u64,
    number: u64,
}

// What the next digit takes off: the trial where there is room for it. Trial and digit are chosen by value: no processor foretells
// the digits of a root, and a wrong guess costs more than four digits.
fn taken_off(trial: u64, rest: u64) -> u64
    ensures { result ≡ cond (leb trial rest) trial 0 }
{
    if trial <= rest { trial } else { 0 }
}

fn digit_of(trial: u64, rest: u64) -> u64
    ensures { result ≡ cond (leb trial rest) 1 0 }
{
    if trial <= rest { 1 } else { 0 }
}

// The next digit is 1 where the root with it squares to no more than what is brought down: where what is left has room for 4 * root + 1.
fn next_digit(d: Digits) -> Digits
    requires { Found d × (d.found < 53) }
    ensures { OneMore d result }
{
    let pair = d.number >> 52;
    let number = (d.number - (pair << 52)) << 2;
    let rest = (d.rest << 2) + pair;
    let trial = (d.root << 2) + 1;
    Digits {
        root: (d.root << 1) + digit_of(trial, rest),
        found: d.found + 1,
        rest: rest - taken_off(trial, rest),
        number,
    }
}

// The whole root of number * 2 ^ 52: 53 digits are found, no more.
fn find_digits(number: u64) -> Digits
    requires { number < 2 ^ 54 }
    ensures { (result.found ≡ 53) × (result.root ≡ whole_root 53 (number * 2 ^ 52)) }
{
    let mut d = Digits {
        root: 0,
        found: 0,
        rest: 0,
        number,
    };
    // No range: nothing is called here but this module's own functions and the two that turn a double into its bits and back.
    while d.found < 53 {
        d = next_digit(d);
    }
    d
}

// A number as digits * 2 ^ power.
#[derive(Clone, Copy)]
struct Scaled {
    digits: u64,
    power: u64,
}

// The same number with 53 binary digits.
fn filled(n: Scaled) -> Scaled
    requires { (n.digits < 2 ^ 53) × (2 ^ 52 ≤ n.digits * 2 ^ n.power) }
    ensures { (result.digits < 2 ^ 53) × (2 ^ 52 ≤ result.digits) × (result.digits * 2 ^ result.power ≡ n.digits * 2 ^ n.power) × (result.power ≤ n.power) }
{
    let mut digits = n.digits;
    let mut power = n.power;
    while digits < 4503599627370496 {
        digits = digits << 1;
        power = power - 1;
    }
    Scaled { digits, power }
}

// The double of 53 digits and a power of two, in units of the least double.
fn assembled(digits: u64, power: u64) -> f64
    requires { (power < 2046) × (2 ^ 52 ≤ digits) × (digits < 2 ^ 53) }
    ensures { result ≡ odd 53 false digits power 1074 }
{
    f64::from_bits((power << 52) + digits)
}

// The root of digits * 2 ^ (power - 1126); the 1022 makes the power of what is cut off even.
fn root_of(n: Scaled) -> f64
    requires { (n.digits < 2 ^ 53) × (2 ^ 52 ≤ n.digits * 2 ^ n.power) × (n.power < 2100) }
    ensures { result ≡ root_units (n.digits * 2 ^ n.power * 2 ^ 1022) }
{
    let full = filled(n);
    let half = full.power >> 1;
    if full.power == half << 1 {
        assembled(find_digits(full.digits).root, half + 485)
    } else {
        assembled(find_digits(full.digits << 1).root, half + 485)
    }
}

// The root of a finite value above 0, by the fields of its bit pattern.
fn root_above(x: f64) -> f64
    requires { T (positive x) }
    ensures { result ≡ root_of x }
{
    let bits = f64::to_bits(x);
    let field = bits >> 52;
    let low = bits - (field << 52);
    if field == 0 {
        root_of(Scaled {
            digits: low,
            power: 52,
        })
    } else {
        root_of(Scaled {
            digits: low + 4503599627370496,
            power: field + 51,
        })
    }
}

// The largest double whose exact square is at most x; NaN where there is none.
pub fn root(x: f64) -> f64
    ensures { result ≡ root_of x }
{
    if x == 0.0 {
        return 0.0;
    }
    if !(0.0 < x) {
        return 0.0 / 0.0;
    }
    if !(x < 1.0 / 0.0) {
        return 0.0 / 0.0;
    }
    root_above(x)
}
