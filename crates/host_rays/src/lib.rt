// Rays and reflection as host programs hand them in and are told of them: small arrays of doubles, and a number for the kind of
// answer.
#![tactic(auto)]

ghost use Rattle.std.specs.Prelude.{◌≡◌};
ghost use Rattle.fresnel.specs.Fresnel.{fresnel_of};
ghost use Rattle.hits.specs.Ahead.{default_least};
ghost use Rattle.hits.specs.Ring.{ring_hit};
ghost use Rattle.hits.specs.Sphere.{sphere_hit};
ghost use Rattle.host_rays.specs.Host.{hit_kind, hit_values, numbered, ray_in, reflection_kind, reflection_values, ring_in, sphere_in};

use fresnel::Reflection;
use hits::{LEAST, Ray, Ring, Sphere};
use scene::Reason;
use steps::Vector;

fn vector(x: f64, y: f64, z: f64) -> Vector
    ensures { result ≡ record { x = x; y = y; z = z } }
{
    Vector { x, y, z }
}

#[tactic(auto, unfolding(crate::specs::Host::ray_in))]
pub fn ray_in(a: &[f64; 6]) -> Ray
    ensures { result ≡ ray_in a.now }
{
    Ray {
        origin: vector(a[0], a[1], a[2]),
        direction: vector(a[3], a[4], a[5]),
    }
}

#[tactic(auto, unfolding(crate::specs::Host::sphere_in))]
fn sphere_in(a: &[f64; 4]) -> Sphere
    ensures { result ≡ sphere_in a.now }
{
    Sphere {
        centre: vector(a[0], a[1], a[2]),
        radius: a[3],
    }
}

#[tactic(auto, unfolding(crate::specs::Host::ring_in))]
fn ring_in(a: &[f64; 8]) -> Ring
    ensures { result ≡ ring_in a.now }
{
    Ring {
        centre: vector(a[0], a[1], a[2]),
        normal: vector(a[3], a[4], a[5]),
        inner: a[6],
        outer: a[7],
    }
}

// Tells a hit: its kind, and the distance. A refusal comes as its number.
pub fn tell_hit(hit: Result<Option<f64>, u32>, answer: &mut [f64; 1]) -> u32
    ensures value { result ≡ hit_kind (numbered hit) }
    ensures answer_after { answer.new ≡ hit_values (numbered hit) }
{
    match hit {
        Ok(Some(t)) => {
            *answer = [t];
            0
        }
        Ok(None) => {
            *answer = [0.0];
            1
        }
        Err(number) => {
            *answer = [0.0];
            number
        }
    }
}

// A ray on a sphere, above a least distance: 0 hit, 1 miss, or the refusal's number, and the distance.
pub fn tell_sphere_above(
    ray: &[f64; 6],
    sphere: &[f64; 4],
    least: f64,
    answer: &mut [f64; 1],
) -> u32
    ensures value { result ≡ hit_kind (sphere_hit least (ray_in ray.now) (sphere_in sphere.now)) }
    ensures answer_after { answer.new ≡ hit_values (sphere_hit least (ray_in ray.now) (sphere_in sphere.now)) }
{
    let hit = hits::sphere_hit_above(ray_in(ray), sphere_in(sphere), least);
    tell_hit(hit.map_err(Reason::number), answer)
}

#[tactic(auto, using(hits::proofs::LeastLaws::default_bits))]
pub fn tell_sphere(ray: &[f64; 6], sphere: &[f64; 4], answer: &mut [f64; 1]) -> u32
    ensures value { result ≡ hit_kind (sphere_hit default_least (ray_in ray.now) (sphere_in sphere.now)) }
    ensures answer_after { answer.new ≡ hit_values (sphere_hit default_least (ray_in ray.now) (sphere_in sphere.now)) }
{
    tell_sphere_above(ray, sphere, LEAST, answer)
}

// A ray on a ring, above a least distance: 0 hit, 1 miss, or the refusal's number, and the distance.
pub fn tell_ring_above(ray: &[f64; 6], ring: &[f64; 8], least: f64, answer: &mut [f64; 1]) -> u32
    ensures value { result ≡ hit_kind (ring_hit least (ray_in ray.now) (ring_in ring.now)) }
    ensures answer_after { answer.new ≡ hit_values (ring_hit least (ray_in ray.now) (ring_in ring.now)) }
{
    let hit = hits::ring_hit_above(ray_in(ray), ring_in(ring), least);
    tell_hit(hit.map_err(Reason::number), answer)
}

#[tactic(auto, using(hits::proofs::LeastLaws::default_bits))]
pub fn tell_ring(ray: &[f64; 6], ring: &[f64; 8], answer: &mut [f64; 1]) -> u32
    ensures value { result ≡ hit_kind (ring_hit default_least (ray_in ray.now) (ring_in ring.now)) }
    ensures answer_after { answer.new ≡ hit_values (ring_hit default_least (ray_in ray.now) (ring_in ring.now)) }
{
    tell_ring_above(ray, ring, LEAST, answer)
}

// Fresnel's coefficients: 0 for coefficients, 1 total reflection, or the refusal's number, and FTE, FTM, F.
pub fn tell_reflection(cos1: f64, n1: f64, n2: f64, answer: &mut [f64; 3]) -> u32
    ensures value { result ≡ reflection_kind (fresnel_of cos1 n1 n2) }
    ensures answer_after { answer.new ≡ reflection_values (fresnel_of cos1 n1 n2) }
{
    match fresnel::fresnel(cos1, n1, n2) {
        Ok(Reflection::Coefficients { te, tm, f }) => {
            *answer = [te, tm, f];
            0
        }
        Ok(Reflection::Total) => {
            *answer = [0.0; 3];
            1
        }
        Err(reason) => {
            *answer = [0.0; 3];
            reason.number()
        }
    }
}
