// Where a ray hits a polygon.
#![tactic(auto)]

ghost use Rattle.std.specs.Prelude.{◌∷◌, ◌≡◌, ◌+◌, ◌*◌, ◌≤◌, drop, length};
ghost use Rattle.std.specs.Float.Ieee.Scale.{finite};
ghost use Rattle.edges.specs.Code.{axis_of, crossed_of};
ghost use Rattle.edges.specs.Corners.{edges_of, corners_of};
ghost use Rattle.edges.specs.Crossing.{inside};
ghost use Rattle.edges.specs.Normal.{normal_of};
ghost use Rattle.hits.specs.Ahead.{default_least};
ghost use Rattle.hits.specs.Outcome.{outcome_of};
ghost use Rattle.hits.specs.Shape.{hit_of};
ghost use Rattle.laws.specs.Runs.{all};
ghost use Rattle.polygon.specs.Polygon.{on_corners, on_polygon, polygon_hit};

use edges::{Dropped, cross_of, crossed_edge, dropped_of, is_zero, sum_of};
use hits::{LEAST, Ray};
use scene::Reason;
use steps::{Vector, along, is_finite, is_finite_vector};

// Corner i, from 0.
fn corner(reals: &[f64], i: usize) -> Vector
    requires { i * 3 + 3 ≤ length reals.now }
    ensures { corners_of (drop (i * 3) reals.now) ≡ result ∷ corners_of (drop ((i + 1) * 3) reals.now) }
{
    let at = i * 3;
    Vector {
        x: reals[at],
        y: reals[at + 1],
        z: reals[at + 2],
    }
}

// The normal of at least two corners: the products of all edges, the closing one last.
fn normal(reals: &[f64]) -> Vector
    requires { 6 ≤ length reals.now }
    ensures { result ≡ normal_of (edges_of (corners_of reals.now)) }
{
    let first = corner(reals, 0);
    let mut from = corner(reals, 1);
    let mut n = cross_of(first, from);
    for i in 2..reals.len() / 3 {
        let to = corner(reals, i);
        n = sum_of(n, cross_of(from, to));
        from = to;
    }
    sum_of(n, cross_of(from, first))
}

// Whether a line from the point crosses an odd number of edges; none where one of them is not worked out.
fn inside_of(reals: &[f64], a: Dropped, p: Vector) -> Option<bool>
    requires { 3 ≤ length reals.now }
    ensures { crossed_of result ≡ inside (axis_of a) p (edges_of (corners_of reals.now)) }
{
    let first = corner(reals, 0);
    let mut from = first;
    let mut odd = false;
    for i in 1..reals.len() / 3 {
        let to = corner(reals, i);
        odd ^= crossed_edge(a, p, from, to)?;
        from = to;
    }
    Some(odd ^ crossed_edge(a, p, from, first)?)
}

fn all_finite(reals: &[f64]) -> bool
    ensures { result ≡ all finite reals.now }
{
    reals.iter().all(|x| is_finite(*x))
}

// Whether what the ray meets at the distance t in the polygon's plane is inside its edges.
fn on_polygon(ray: Ray, n: Vector, reals: &[f64], t: f64) -> Result<Option<f64>, Reason>
    requires { 3 ≤ length reals.now }
    ensures { outcome_of result ≡ on_polygon ray n (edges_of (corners_of reals.now)) t }
{
    let p = along(ray.origin, t, ray.direction);
    if !is_finite_vector(p) {
        return Err(Reason::NotFinite);
    }
    match inside_of(reals, dropped_of(n), p) {
        None => Err(Reason::NotFinite),
        Some(true) => Ok(Some(t)),
        Some(false) => Ok(None),
    }
}

// With its corners tested.
fn on_corners(ray: Ray, reals: &[f64], least: f64) -> Result<Option<f64>, Reason>
    requires { 6 ≤ length reals.now }
    ensures { outcome_of result ≡ hit_of least (on_corners ray (corners_of reals.now)) }
{
    let n = normal(reals);
    if !is_finite_vector(n) {
        return Err(Reason::NotFinite);
    }
    if is_zero(n) {
        return Err(Reason::OutOfRange);
    }
    match hits::plane_hit(ray, corner(reals, 0), n, least)? {
        Some(t) => on_polygon(ray, n, reals, t),
        None => Ok(None),
    }
}

// Three reals are a corner. With a least distance by name.
pub fn polygon_hit_above(ray: Ray, reals: &[f64], least: f64) -> Result<Option<f64>, Reason>
    ensures { outcome_of result ≡ polygon_hit least ray reals.now }
{
    let finite = is_finite_vector(ray.origin) & is_finite_vector(ray.direction) & all_finite(reals);
    if !(finite & is_finite(least)) {
        return Err(Reason::NotFinite);
    }
    let in_range = (9 <= reals.len()) & (reals.len() % 3 == 0);
    if !(in_range & (0.0 <= least)) {
        return Err(Reason::OutOfRange);
    }
    on_corners(ray, reals, least)
}

pub fn polygon_hit(ray: Ray, reals: &[f64]) -> Result<Option<f64>, Reason>
    ensures { outcome_of result ≡ polygon_hit default_least ray reals.now }
{
    polygon_hit_above(ray, reals, LEAST)
}
