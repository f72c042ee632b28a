// Rays on polygons as host programs hand them in and are told of them.
#![tactic(auto)]

ghost use Rattle.std.specs.Prelude.{◌≡◌};
ghost use Rattle.hits.specs.Ahead.{default_least};
ghost use Rattle.host_rays.specs.Host.{hit_kind, hit_values, ray_in};
ghost use Rattle.polygon.specs.Polygon.{polygon_hit};
ghost use Rattle.table_polygon.specs.InTable.{hit_in_table};

use hits::LEAST;
use host_rays::{ray_in, tell_hit};
use scene::Reason;

// A ray on a polygon, above a least distance: 0 hit, 1 miss, or the refusal's number, and the distance.
pub fn tell_polygon_above(ray: &[f64; 6], corners: &[f64], least: f64, answer: &mut [f64; 1]) -> u32
    ensures value { result ≡ hit_kind (polygon_hit least (ray_in ray.now) corners.now) }
    ensures answer_after { answer.new ≡ hit_values (polygon_hit least (ray_in ray.now) corners.now) }
{
    let hit = polygon::polygon_hit_above(ray_in(ray), corners, least);
    tell_hit(hit.map_err(Reason::number), answer)
}

#[tactic(auto, using(hits::proofs::LeastLaws::default_bits))]
pub fn tell_polygon(ray: &[f64; 6], corners: &[f64], answer: &mut [f64; 1]) -> u32
    ensures value { result ≡ hit_kind (polygon_hit default_least (ray_in ray.now) corners.now) }
    ensures answer_after { answer.new ≡ hit_values (polygon_hit default_least (ray_in ray.now) corners.now) }
{
    tell_polygon_above(ray, corners, LEAST, answer)
}

// A ray on a polygon of a table: the same.
pub fn tell_in_table_above(
    ray: &[f64; 6],
    records: &[u32],
    count: usize,
    number: usize,
    reals: &[f64],
    least: f64,
    answer: &mut [f64; 1],
) -> u32
    ensures value { result ≡ hit_kind (hit_in_table least (ray_in ray.now) records.now count number reals.now) }
    ensures answer_after { answer.new ≡ hit_values (hit_in_table least (ray_in ray.now) records.now count number reals.now) }
{
    let r = ray_in(ray);
    let hit = table_polygon::hit_in_table_above(r, records, count, number, reals, least);
    tell_hit(hit.map_err(Reason::number), answer)
}

#[tactic(auto, using(hits::proofs::LeastLaws::default_bits))]
pub fn tell_in_table(
    ray: &[f64; 6],
    records: &[u32],
    count: usize,
    number: usize,
    reals: &[f64],
    answer: &mut [f64; 1],
) -> u32
    ensures value { result ≡ hit_kind (hit_in_table default_least (ray_in ray.now) records.now count number reals.now) }
    ensures answer_after { answer.new ≡ hit_values (hit_in_table default_least (ray_in ray.now) records.now count number reals.now) }
{
    tell_in_table_above(ray, records, count, number, reals, LEAST, answer)
}
