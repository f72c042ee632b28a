// The double nearest to a decimal number.
ghost use Rattle.std.specs.Prelude.{◌≡◌, cond, false, ◌*◌, ◌^◌, ◌≤◌, ◌<◌};
ghost use Rattle.std.specs.Float.Ieee.{neg};
ghost use Rattle.std.specs.Float.Ieee.Exact.{HasValue};
ghost use Rattle.numeral.specs.Exactly.{Exactly};
ghost use Rattle.numeral.specs.Numeral.{answer_of, nearest, number_of};
ghost use Rattle.numeral_parts.specs.Saturated.{limit};

use crate::NumeralError;
use numeral_parts::LIMIT;

// 10 to the power k, which a double holds exactly. (A constant array would be laid out anew at each call.)
fn ten(k: u64) -> f64
    requires { k ≤ 22 }
    ensures { HasValue result false (10 ^ k) 1 }
{
    match k {
        0 => 1e0,
        1 => 1e1,
        2 => 1e2,
        3 => 1e3,
        4 => 1e4,
        5 => 1e5,
        6 => 1e6,
        7 => 1e7,
        8 => 1e8,
        9 => 1e9,
        10 => 1e10,
        11 => 1e11,
        12 => 1e12,
        13 => 1e13,
        14 => 1e14,
        15 => 1e15,
        16 => 1e16,
        17 => 1e17,
        18 => 1e18,
        19 => 1e19,
        20 => 1e20,
        21 => 1e21,
        _ => 1e22,
    }
}

// c times 10 to the power k, rounded once.
fn times(c: u64, k: u64) -> f64
    requires { (c < limit) × (k ≤ 22) }
    ensures { result ≡ nearest false c k 0 }
{
    c as f64 * ten(k)
}

// c over 10 to the power k, rounded once.
fn over(c: u64, k: u64) -> f64
    requires { (c < limit) × (k ≤ 22) }
    ensures { result ≡ nearest false c 0 k }
{
    c as f64 / ten(k)
}

fn signed(negative: bool, x: f64) -> f64
    ensures { result ≡ cond negative (neg x) x }
{
    if negative { -x } else { x }
}

// A number as it is written: the coefficient times 10 to the power `up` less `down`, with its sign.
#[derive(Clone, Copy)]
pub struct Decimal {
    pub negative: bool,
    pub coefficient: u64,
    pub up: u64,
    pub down: u64,
}

impl Decimal {
    // The number, rounded once, where the coefficient is below the limit and the power from -22 to 22.
    #[inline(always)]
    pub fn exact(self) -> Option<f64>
        ensures { Exactly self.negative self.coefficient self.up self.down result }
    {
        let Decimal {
            negative,
            coefficient,
            up,
            down,
        } = self;
        if LIMIT <= coefficient {
            return None;
        }
        if down <= up {
            if 22 < up - down {
                return None;
            }
            return Some(signed(negative, times(coefficient, up - down)));
        }
        if 22 < down - up {
            return None;
        }
        Some(signed(negative, over(coefficient, down - up)))
    }

    // The double nearest to the number.
    pub fn nearest(self) -> Result<f64, NumeralError>
        ensures { answer_of result ≡ number_of self.negative self.coefficient self.up self.down }
    {
        if self.coefficient == 0 {
            return Ok(signed(self.negative, 0.0));
        }
        self.exact().ok_or(NumeralError::TooLarge)
    }
}
