// Where a ray hits a polygon of a finished table. The tables may hold anything.
#![tactic(auto)]

ghost use Rattle.std.specs.Prelude.{◌≡◌};
ghost use Rattle.hits.specs.Ahead.{default_least};
ghost use Rattle.hits.specs.Outcome.{outcome_of};
ghost use Rattle.table.specs.Question.{refusal_number};
ghost use Rattle.table_polygon.specs.InTable.{corners_test, hit_in_table, polygon_refusal};

use hits::{LEAST, Ray};
use kinds::POLYGON;
use scene::Reason;
use table::{KIND, REAL, REALS};

// Whether a record is a polygon's, with n reals that are all among those lent.
fn corners_test(kind: u32, real: usize, n: usize, lent: usize) -> Result<(), Reason>
    ensures { refusal_number result ≡ corners_test kind real n lent }
{
    if kind != POLYGON {
        return Err(Reason::BadTable);
    }
    if lent < real {
        return Err(Reason::BadTable);
    }
    if lent - real < n {
        return Err(Reason::BadTable);
    }
    Ok(())
}

// Whether a primitive can be asked about as a polygon.
fn polygon_refusal(records: &[u32], count: usize, number: usize, lent: usize) -> Result<(), Reason>
    ensures { refusal_number result ≡ polygon_refusal records.now count number lent }
{
    table::number_refusal(records, count, number)?;
    corners_test(
        table::field(records, number, KIND),
        table::field(records, number, REAL) as usize,
        table::field(records, number, REALS) as usize,
        lent,
    )
}

// Where a ray hits the polygon of a number, with a least distance by name.
pub fn hit_in_table_above(
    ray: Ray,
    records: &[u32],
    count: usize,
    number: usize,
    reals: &[f64],
    least: f64,
) -> Result<Option<f64>, Reason>
    ensures { outcome_of result ≡ hit_in_table least ray records.now count number reals.now }
{
    polygon_refusal(records, count, number, reals.len())?;
    polygon::polygon_hit_above(ray, table::reals_of(records, reals, number), least)
}

pub fn hit_in_table(
    ray: Ray,
    records: &[u32],
    count: usize,
    number: usize,
    reals: &[f64],
) -> Result<Option<f64>, Reason>
    ensures { outcome_of result ≡ hit_in_table default_least ray records.now count number reals.now }
{
    hit_in_table_above(ray, records, count, number, reals, LEAST)
}
