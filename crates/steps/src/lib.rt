// Steps in f64 that have to be finite: one that is not is NaN, and so is all that uses it.
#![tactic(auto)]

ghost use Rattle.std.specs.Prelude.{◌≡◌};
ghost use Rattle.std.specs.Float.Ieee.Scale.{finite};
ghost use Rattle.steps.specs.Step.{step};
ghost use Rattle.steps.specs.Vectors.{along, dot, finite_vector, minus};

#[derive(Clone, Copy, PartialEq, Debug)]
pub struct Vector {
    pub x: f64,
    pub y: f64,
    pub z: f64,
}

#[tactic(auto, using(crate::proofs::StepLaws::finite_is))]
pub fn is_finite(x: f64) -> bool
    ensures { result ≡ finite x }
{
    x.is_finite()
}

pub fn step(x: f64) -> f64
    ensures { result ≡ step x }
{
    if is_finite(x) { x } else { f64::NAN }
}

pub fn is_finite_vector(v: Vector) -> bool
    ensures { result ≡ finite_vector v }
{
    is_finite(v.x) & is_finite(v.y) & is_finite(v.z)
}

// A product or a sum that is not finite leaves no finite sum, so the last one alone is tested.
pub fn dot(a: Vector, b: Vector) -> f64
    ensures { result ≡ dot a b }
{
    step(a.x * b.x + a.y * b.y + a.z * b.z)
}

pub fn minus(a: Vector, b: Vector) -> Vector
    ensures { result ≡ minus a b }
{
    Vector {
        x: step(a.x - b.x),
        y: step(a.y - b.y),
        z: step(a.z - b.z),
    }
}

// The point at a distance t from o in the direction d.
pub fn along(o: Vector, t: f64, d: Vector) -> Vector
    ensures { result ≡ along o t d }
{
    Vector {
        x: step(o.x + t * d.x),
        y: step(o.y + t * d.y),
        z: step(o.z + t * d.z),
    }
}
