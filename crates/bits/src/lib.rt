// Doubles compared by their bits.
#![tactic(auto)]

ghost use Rattle.std.specs.Prelude.{◌≡◌};
ghost use Rattle.std.specs.Float.{binary64};
ghost use Rattle.std.specs.Float.Ieee.{to_bits};
ghost use Rattle.bits.specs.Bits.{same_reals};

// What the definition of bits gives for a NaN, whose pattern the machine leaves open.
const NAN_BITS: u64 = 9221120237041090560;

// The bits of a real, for a NaN too.
pub fn bits_of(x: f64) -> u64
    ensures { result ≡ to_bits binary64 x }
{
    if x.is_nan() { NAN_BITS } else { x.to_bits() }
}

// Whether two lists of reals have the same bits.
pub fn same_bits(a: &[f64], b: &[f64]) -> bool
    ensures { result ≡ same_reals a.now b.now }
{
    a.len() == b.len() && a.iter().zip(b).all(|(x, y)| bits_of(*x) == bits_of(*y))
}
