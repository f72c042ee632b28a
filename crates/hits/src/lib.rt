// Where a ray hits a sphere or a ring: at a distance above a least one. An answer is a distance, none for a miss, or the reason why it
// is refused.
#![tactic(auto)]

ghost use Rattle.std.specs.Prelude.{◌∷◌, [], ◌≡◌};
ghost use Rattle.hits.specs.Ahead.{ahead, default_least};
ghost use Rattle.hits.specs.Outcome.{outcome_of};
ghost use Rattle.hits.specs.Plane.{plane_hit};
ghost use Rattle.hits.specs.Ring.{on_ring, ring_hit};
ghost use Rattle.hits.specs.Shape.{first_ahead, hit_of};
ghost use Rattle.hits.specs.Sphere.{from_centre, hit_at, solved, sphere_hit};

use root::root;
use scene::Reason;
use steps::{Vector, along, dot, is_finite, is_finite_vector, minus, step};

// The least distance of a call that names none.
pub const LEAST: f64 = 0.001;

#[derive(Clone, Copy)]
pub struct Ray {
    pub origin: Vector,
    pub direction: Vector,
}

#[derive(Clone, Copy)]
pub struct Sphere {
    pub centre: Vector,
    pub radius: f64,
}

#[derive(Clone, Copy)]
pub struct Ring {
    pub centre: Vector,
    pub normal: Vector,
    pub inner: f64,
    pub outer: f64,
}

// The one test of a distance, for every shape.
fn is_ahead(least: f64, t: f64) -> bool
    ensures { result ≡ ahead least t }
{
    t > least
}

fn first_ahead(least: f64, near: f64, far: f64) -> Option<f64>
    ensures { outcome_of (Ok result) ≡ first_ahead least (hit_at near ∷ hit_at far ∷ []) }
{
    if is_ahead(least, near) {
        Some(near)
    } else if is_ahead(least, far) {
        Some(far)
    } else {
        None
    }
}

// From the discriminant on.
fn solve(least: f64, a: f64, b: f64, discriminant: f64) -> Result<Option<f64>, Reason>
    ensures { outcome_of result ≡ hit_of least (solved a b discriminant) }
{
    if !is_finite(discriminant) {
        return Err(Reason::NotFinite);
    }
    if discriminant < 0.0 {
        return Ok(None);
    }
    let e = step(root(discriminant));
    let near = step((-b - e) / a);
    let far = step((-b + e) / a);
    if !(is_finite(near) & is_finite(far)) {
        return Err(Reason::NotFinite);
    }
    Ok(first_ahead(least, near, far))
}

// From the origin as seen from the centre on.
fn from_centre(least: f64, p: Vector, d: Vector, radius: f64) -> Result<Option<f64>, Reason>
    ensures { outcome_of result ≡ hit_of least (from_centre p d radius) }
{
    let a = dot(d, d);
    if !(is_finite_vector(p) & is_finite(a)) {
        return Err(Reason::NotFinite);
    }
    if a == 0.0 {
        return Err(Reason::OutOfRange);
    }
    let b = dot(p, d);
    let q = step(dot(p, p) - radius * radius);
    solve(least, a, b, step(b * b - a * q))
}

// With a least distance by name.
pub fn sphere_hit_above(ray: Ray, sphere: Sphere, least: f64) -> Result<Option<f64>, Reason>
    ensures { outcome_of result ≡ sphere_hit least ray sphere }
{
    let finite = is_finite_vector(ray.origin)
        & is_finite_vector(ray.direction)
        & is_finite_vector(sphere.centre)
        & is_finite(sphere.radius);
    if !(finite & is_finite(least)) {
        return Err(Reason::NotFinite);
    }
    if !((sphere.radius > 0.0) & (0.0 <= least)) {
        return Err(Reason::OutOfRange);
    }
    from_centre(
        least,
        minus(ray.origin, sphere.centre),
        ray.direction,
        sphere.radius,
    )
}

pub fn sphere_hit(ray: Ray, sphere: Sphere) -> Result<Option<f64>, Reason>
    ensures { outcome_of result ≡ sphere_hit default_least ray sphere }
{
    sphere_hit_above(ray, sphere, LEAST)
}

// The plane through c with the normal n.
pub fn plane_hit(ray: Ray, c: Vector, n: Vector, least: f64) -> Result<Option<f64>, Reason>
    ensures { outcome_of result ≡ plane_hit least ray c n }
{
    let m = dot(ray.direction, n);
    if !is_finite(m) {
        return Err(Reason::NotFinite);
    }
    if m == 0.0 {
        return Ok(None);
    }
    let t = step(dot(minus(c, ray.origin), n) / m);
    if !is_finite(t) {
        return Err(Reason::NotFinite);
    }
    if is_ahead(least, t) {
        Ok(Some(t))
    } else {
        Ok(None)
    }
}

// Whether what the ray meets at the distance t in the ring's plane is the ring.
fn on_ring(ray: Ray, ring: Ring, t: f64) -> Result<Option<f64>, Reason>
    ensures { outcome_of result ≡ on_ring ray ring t }
{
    let w = minus(along(ray.origin, t, ray.direction), ring.centre);
    let s = dot(w, w);
    let inner = step(ring.inner * ring.inner);
    let outer = step(ring.outer * ring.outer);
    if !(is_finite(s) & is_finite(inner) & is_finite(outer)) {
        return Err(Reason::NotFinite);
    }
    if (inner <= s) & (s <= outer) {
        Ok(Some(t))
    } else {
        Ok(None)
    }
}

// With a least distance by name.
pub fn ring_hit_above(ray: Ray, ring: Ring, least: f64) -> Result<Option<f64>, Reason>
    ensures { outcome_of result ≡ ring_hit least ray ring }
{
    let finite = is_finite_vector(ray.origin)
        & is_finite_vector(ray.direction)
        & is_finite_vector(ring.centre)
        & is_finite_vector(ring.normal)
        & is_finite(ring.inner)
        & is_finite(ring.outer);
    if !(finite & is_finite(least)) {
        return Err(Reason::NotFinite);
    }
    let in_range = (0.0 <= ring.inner) & (ring.inner < ring.outer);
    if !(in_range & (0.0 <= least)) {
        return Err(Reason::OutOfRange);
    }
    match plane_hit(ray, ring.centre, ring.normal, least)? {
        Some(t) => on_ring(ray, ring, t),
        None => Ok(None),
    }
}

pub fn ring_hit(ray: Ray, ring: Ring) -> Result<Option<f64>, Reason>
    ensures { outcome_of result ≡ ring_hit default_least ray ring }
{
    ring_hit_above(ray, ring, LEAST)
}
