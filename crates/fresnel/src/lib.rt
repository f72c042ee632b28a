// Fresnel's coefficients.
#![tactic(auto)]

ghost use Rattle.std.specs.Prelude.{◌≡◌};
ghost use Rattle.steps.specs.Step.{◌⊕◌, ◌⊗◌, half};
ghost use Rattle.fresnel.specs.Fresnel.{coefficient, cos2_squared, fresnel_of, reflected};
ghost use Rattle.fresnel.specs.Outcome.{outcome_of};

use root::root;
use scene::Reason;
use steps::{is_finite, step};

// FTE, FTM and F; or total reflection.
#[derive(Clone, Copy)]
pub enum Reflection {
    Coefficients { te: f64, tm: f64, f: f64 },
    Total,
}

// The square of the second angle's cosine.
fn cos2_squared(cos1: f64, n1: f64, n2: f64) -> f64
    ensures { result ≡ cos2_squared cos1 n1 n2 }
{
    let k = step(n1 / n2);
    let s = step(1.0 - step(cos1 * cos1));
    let t = step(step(k * k) * s);
    step(1.0 - t)
}

fn coefficient(a: f64, b: f64) -> f64
    ensures { result ≡ coefficient a b }
{
    let q = step(step(a - b) / step(a + b));
    step(q * q)
}

fn mean(te: f64, tm: f64) -> f64
    ensures { result ≡ half ⊗ te ⊕ half ⊗ tm }
{
    step(step(0.5 * te) + step(0.5 * tm))
}

// With both cosines known.
fn reflected(cos1: f64, n1: f64, n2: f64, cos2: f64) -> Result<Reflection, Reason>
    ensures { outcome_of result ≡ reflected cos1 n1 n2 cos2 }
{
    let te = coefficient(step(n1 * cos1), step(n2 * cos2));
    let tm = coefficient(step(n1 * cos2), step(n2 * cos1));
    let f = mean(te, tm);
    if !is_finite(f) {
        return Err(Reason::NotFinite);
    }
    Ok(Reflection::Coefficients { te, tm, f })
}

pub fn fresnel(cos1: f64, n1: f64, n2: f64) -> Result<Reflection, Reason>
    ensures { outcome_of result ≡ fresnel_of cos1 n1 n2 }
{
    if !(is_finite(cos1) & is_finite(n1) & is_finite(n2)) {
        return Err(Reason::NotFinite);
    }
    if !((0.0 <= cos1) & (cos1 <= 1.0) & (0.0 < n1) & (0.0 < n2)) {
        return Err(Reason::OutOfRange);
    }
    let u = cos2_squared(cos1, n1, n2);
    if !is_finite(u) {
        return Err(Reason::NotFinite);
    }
    if u < 0.0 {
        return Ok(Reflection::Total);
    }
    reflected(cos1, n1, n2, step(root(u)))
}
