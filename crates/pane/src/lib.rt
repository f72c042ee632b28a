// A pane of glass: the two factors of its interreflection, and the transmissivity of a transmittance.
#![tactic(auto)]

ghost use Rattle.std.specs.Prelude.{◌≡◌};
ghost use Rattle.pane.specs.Factors as factors;
ghost use Rattle.pane.specs.Factors.{back_part, factors_of, is_fraction, rest, through_part};
ghost use Rattle.pane.specs.Transmissivity as transmitted;
ghost use Rattle.pane.specs.Transmissivity.{from_root, transmissivity_of, under_root};

use root::root;
use scene::Reason;
use steps::{is_finite, step};

// The factors of what goes through and of what comes back.
#[derive(Clone, Copy)]
pub struct Interreflection {
    pub through: f64,
    pub back: f64,
}

fn is_fraction(x: f64) -> bool
    ensures { result ≡ is_fraction x }
{
    (0.0 <= x) & (x <= 1.0)
}

fn rest(f: f64, c: f64) -> f64
    ensures { result ≡ rest f c }
{
    let square = step(f * f);
    step(1.0 - step(square * c))
}

fn through_part(f: f64, c: f64) -> f64
    ensures { result ≡ through_part f c }
{
    let u = step(1.0 - f);
    step(step(0.5 * step(u * u)) / rest(f, c))
}

fn back_part(f: f64, c: f64) -> f64
    ensures { result ≡ back_part f c }
{
    let v = step(1.0 - step(2.0 * f));
    let w = step(1.0 + step(v * c));
    step(step(step(0.5 * f) * w) / rest(f, c))
}

// FTE, FTM and Ct, the factors' order of steps as in 002.
pub fn factors(te: f64, tm: f64, ct: f64) -> Result<Interreflection, Reason>
    ensures { factors.outcome_of result ≡ factors_of te tm ct }
{
    if !(is_finite(te) & is_finite(tm) & is_finite(ct)) {
        return Err(Reason::NotFinite);
    }
    if !(is_fraction(te) & is_fraction(tm) & is_fraction(ct)) {
        return Err(Reason::OutOfRange);
    }
    let c = step(ct * ct);
    let through = step(through_part(te, c) + through_part(tm, c));
    let back = step(back_part(te, c) + back_part(tm, c));
    if !(is_finite(through) & is_finite(back)) {
        return Err(Reason::NotFinite);
    }
    Ok(Interreflection { through, back })
}

fn under_root(t: f64) -> f64
    ensures { result ≡ under_root t }
{
    let square = step(step(0.0072522239 * t) * t);
    step(0.8402528435 + square)
}

fn from_root(s: f64, t: f64) -> f64
    ensures { result ≡ from_root s t }
{
    step(step(step(s - 0.9166530661) / 0.0036261119) / t)
}

// The transmissivity of a transmittance.
pub fn transmissivity(t: f64) -> Result<f64, Reason>
    ensures { transmitted.outcome_of result ≡ transmissivity_of t }
{
    if !is_finite(t) {
        return Err(Reason::NotFinite);
    }
    if !((0.0 < t) & (t <= 1.0)) {
        return Err(Reason::OutOfRange);
    }
    let tn = from_root(step(root(under_root(t))), t);
    if !is_finite(tn) {
        return Err(Reason::NotFinite);
    }
    Ok(tn)
}
