// The edges of a polygon, one at a time: products for the normal, the axis that is dropped for it, and crossings.
#![tactic(auto)]

ghost use Rattle.std.specs.Prelude.{◌≡◌};
ghost use Rattle.edges.specs.Code.{axis_of, crossed_of};
ghost use Rattle.edges.specs.Corners.{edge};
ghost use Rattle.edges.specs.Crossing.{between, crossed, worked_out};
ghost use Rattle.edges.specs.Normal.{cross, dropped, first, is_zero, magnitude, plus, second};

use steps::{Vector, is_finite, step};

// The axis that is dropped.
#[derive(Clone, Copy)]
pub enum Dropped {
    X,
    Y,
    Z,
}

// The product of the two ends of an edge.
pub fn cross_of(a: Vector, b: Vector) -> Vector
    ensures { result ≡ cross (edge a b) }
{
    Vector {
        x: step(step(a.y * b.z) - step(a.z * b.y)),
        y: step(step(a.z * b.x) - step(a.x * b.z)),
        z: step(step(a.x * b.y) - step(a.y * b.x)),
    }
}

pub fn sum_of(a: Vector, b: Vector) -> Vector
    ensures { result ≡ plus a b }
{
    Vector {
        x: step(a.x + b.x),
        y: step(a.y + b.y),
        z: step(a.z + b.z),
    }
}

pub fn is_zero(n: Vector) -> bool
    ensures { result ≡ is_zero n }
{
    (n.x == 0.0) & (n.y == 0.0) & (n.z == 0.0)
}

// Not `f64::abs`, which makes 0 of -0: `magnitude` leaves -0 as it is.
fn magnitude_of(t: f64) -> f64
    ensures { result ≡ magnitude t }
{
    if t < 0.0 {
        return -t;
    }
    t
}

// The axis whose part of the normal is largest in magnitude.
pub fn dropped_of(n: Vector) -> Dropped
    ensures { axis_of result ≡ dropped n }
{
    let x = magnitude_of(n.x);
    let y = magnitude_of(n.y);
    let z = magnitude_of(n.z);
    if x < y {
        if y < z {
            return Dropped::Z;
        }
        return Dropped::Y;
    }
    if x < z {
        return Dropped::Z;
    }
    Dropped::X
}

// A point's part along the first axis that is kept, and along the second.
fn first_of(a: Dropped, v: Vector) -> f64
    ensures { result ≡ first (axis_of a) v }
{
    match a {
        Dropped::X => v.y,
        Dropped::Y => v.x,
        Dropped::Z => v.x,
    }
}

fn second_of(a: Dropped, v: Vector) -> f64
    ensures { result ≡ second (axis_of a) v }
{
    match a {
        Dropped::X => v.z,
        Dropped::Y => v.z,
        Dropped::Z => v.y,
    }
}

// Whether a counting edge is crossed, from its lower end to its upper one.
fn worked_out(a: Dropped, p: Vector, l: Vector, u: Vector) -> Option<bool>
    ensures { crossed_of result ≡ worked_out (axis_of a) p l u }
{
    let g = first_of(a, l);
    let h = second_of(a, l);
    let up = step(second_of(a, p) - h);
    let wide = step(first_of(a, u) - g);
    let high = step(second_of(a, u) - h);
    let at = step(g + step(step(up * wide) / high));
    is_finite(at).then_some(first_of(a, p) < at)
}

// An edge by its lower end and its upper one: none but a counting edge is worked out.
fn between_ends(a: Dropped, p: Vector, l: Vector, u: Vector) -> Option<bool>
    ensures { crossed_of result ≡ between (axis_of a) p l u }
{
    let h = second_of(a, p);
    if (second_of(a, l) <= h) & (h < second_of(a, u)) {
        return worked_out(a, p, l, u);
    }
    Some(false)
}

// Whether one edge is crossed; none where a step of it is NaN or infinite.
pub fn crossed_edge(a: Dropped, p: Vector, from: Vector, to: Vector) -> Option<bool>
    ensures { crossed_of result ≡ crossed (axis_of a) p (edge from to) }
{
    let s = second_of(a, from);
    let t = second_of(a, to);
    if s < t {
        return between_ends(a, p, from, to);
    }
    if t < s {
        return between_ends(a, p, to, from);
    }
    Some(false)
}
