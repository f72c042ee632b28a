// The entry points for host programs, under C's calling convention: numbers, slices and small arrays, no precondition. Each is
// the call of the same promise in `host_reading`, `host_scenes`, `host_shown`, `host_saves`, `host_lines`, `host_writing`,
// `host_moving`, `host_sorting`, `host_precedence`, `host_joining`, `host_rays`, `host_polygon`, `host_pane`, `ranks` or `root`.
#![tactic(auto)]

ghost use Rattle.std.specs.Prelude.{[], ◌∷◌, ◌≡◌, length, replicate};
ghost use Rattle.finish.specs.Question.{name_refusal};
ghost use Rattle.fresnel.specs.Fresnel.{fresnel_of};
ghost use Rattle.hits.specs.Ahead.{default_least};
ghost use Rattle.hits.specs.Ring.{ring_hit};
ghost use Rattle.hits.specs.Sphere.{sphere_hit};
ghost use Rattle.host_joining.specs.Host.{HostChecks, HostProposes};
ghost use Rattle.host_lines.specs.Host.{HostLine};
ghost use Rattle.host_lines.specs.Ordered.{HostOrdered};
ghost use Rattle.host_moving.specs.Host.{HostMoves};
ghost use Rattle.host_pane.specs.Host.{factors_kind, factors_values, transmitted_kind, transmitted_values};
ghost use Rattle.host_rays.specs.Host.{hit_kind, hit_values, ray_in, reflection_kind, reflection_values, ring_in, sphere_in};
ghost use Rattle.host_saves.specs.Host.{HostReadsBoth};
ghost use Rattle.host_reading.specs.Host.{HostReads, HostReadsIndexed};
ghost use Rattle.host_scenes.specs.Host.{finish_reason, finish_values, name_part, word_values};
ghost use Rattle.host_shown.specs.Host.{shown_many, shown_reason};
ghost use Rattle.host_sorting.specs.Host.{HostSorts};
ghost use Rattle.host_writing.specs.Host.{HostWrites};
ghost use Rattle.ordered.specs.Lines.{scene};
ghost use Rattle.pane.specs.Factors.{factors_of};
ghost use Rattle.pane.specs.Transmissivity.{transmissivity_of};
ghost use Rattle.polygon.specs.Polygon.{polygon_hit};
ghost use Rattle.precedence.specs.Answer.{kind_of, order_of, values_of};
ghost use Rattle.ranks.specs.Rank.{order_table};
ghost use Rattle.root.specs.Root.{root_of};
ghost use Rattle.shown.specs.List.{shown_list};
ghost use Rattle.table_polygon.specs.InTable.{hit_in_table};

use content::Scene;
use ordered::OrderedScene;

// Reads a scene: the reason or 0, and place, primitives, reals.
#[unsafe(no_mangle)]
pub extern "C" fn kribbelsteen_read(
    mode: u32,
    text: &[u8],
    records: &mut [u32],
    reals: &mut [f64],
    pairs: &mut [u32],
    answer: &mut [usize; 3],
) -> u32
    ensures { HostReads mode text.now records.old reals.old pairs.old result answer.new records.new reals.new pairs.new }
{
    host_reading::tell_reading(mode, text, records, reals, pairs, answer)
}

// Reads a scene by a lent index: the reason or 0, and place, primitives, reals, and entries looked at.
#[unsafe(no_mangle)]
pub extern "C" fn kribbelsteen_read_indexed(
    mode: u32,
    text: &[u8],
    records: &mut [u32],
    reals: &mut [f64],
    pairs: &mut [u32],
    index: &mut [u32],
    answer: &mut [usize; 4],
) -> u32
    ensures { HostReadsIndexed mode text.now records.old reals.old pairs.old index.old result answer.new records.new reals.new pairs.new index.new }
{
    host_reading::tell_indexed(mode, text, records, reals, pairs, index, answer)
}

// A primitive's name: the refusal's number or 0, and the name's place and length.
#[unsafe(no_mangle)]
pub extern "C" fn kribbelsteen_name(
    text: &[u8],
    records: &[u32],
    count: usize,
    number: usize,
    answer: &mut [usize; 2],
) -> u32
    ensures value { result ≡ name_refusal text.now records.now count number }
    ensures answer_after { answer.new ≡ name_part text.now records.now count number }
{
    host_scenes::tell_name(text, records, count, number, answer)
}

// A primitive's finish: the refusal's number or 0, and the material and the links followed.
#[unsafe(no_mangle)]
pub extern "C" fn kribbelsteen_finish(
    records: &[u32],
    count: usize,
    number: usize,
    allowance: usize,
    answer: &mut [usize; 2],
) -> u32
    ensures value { result ≡ finish_reason records.now count number allowance }
    ensures answer_after { answer.new ≡ finish_values records.now count number allowance }
{
    host_scenes::tell_finish(records, count, number, allowance, answer)
}

// The materials that a primitive may show, smallest number first in the list: the refusal's number or 0, and how many there are.
#[unsafe(no_mangle)]
pub extern "C" fn kribbelsteen_shown(
    records: &[u32],
    pairs: &[u32],
    count: usize,
    number: usize,
    list: &mut [u32],
    answer: &mut [usize; 1],
) -> u32
    ensures value { result ≡ shown_reason records.now pairs.now count number (length list.old) }
    ensures answer_after { answer.new ≡ shown_many records.now pairs.now count number (length list.old) ∷ [] }
    ensures list_after { list.new ≡ shown_list records.now pairs.now count number (length list.old) }
{
    host_shown::tell_shown(records, pairs, count, number, list, answer)
}

// The word at or after a place: its place and length.
#[unsafe(no_mangle)]
pub extern "C" fn kribbelsteen_next_word(text: &[u8], at: usize, answer: &mut [usize; 2])
    ensures { answer.new ≡ word_values text.now at }
{
    host_scenes::tell_word(text, at, answer);
}

// Reads two scenes: the reason or 0, and side, place, and primitives and reals of each.
#[unsafe(no_mangle)]
pub extern "C" fn kribbelsteen_read_both(
    mode: u32,
    left: &[u8],
    left_records: &mut [u32],
    left_reals: &mut [f64],
    right: &[u8],
    right_records: &mut [u32],
    right_reals: &mut [f64],
    answer: &mut [usize; 6],
) -> u32
    ensures { HostReadsBoth mode left.now left_records.old left_reals.old right.now right_records.old right_reals.old result answer.new left_records.new left_reals.new right_records.new right_reals.new }
{
    host_saves::tell_both(
        mode,
        left,
        left_records,
        left_reals,
        right,
        right_records,
        right_reals,
        answer,
    )
}

// The next line after the key held: 1 for a line and 0 for the end, and side, number, nth and state in place of the key.
#[unsafe(no_mangle)]
pub extern "C" fn kribbelsteen_next_line<'a>(
    left: &'a [u8],
    left_records: &[u32],
    left_reals: &[f64],
    right: &'a [u8],
    right_records: &[u32],
    right_reals: &[f64],
    line: &mut [usize; 4],
) -> u32
    ensures { HostLine left.now left_records.now left_reals.now right.now right_records.now right_reals.now line.old result line.new }
{
    let left_scene = Scene {
        text: left,
        records: left_records,
        reals: left_reals,
    };
    let right_scene = Scene {
        text: right,
        records: right_records,
        reals: right_reals,
    };
    host_lines::tell_line(left_scene, right_scene, line)
}

// Puts the names of a scene in order: the numbers of its records in a table's first half, and the nth of each in the rest.
#[unsafe(no_mangle)]
pub extern "C" fn kribbelsteen_order_names(
    text: &[u8],
    records: &[u32],
    order: &mut [u32],
    scratch: &mut [u32],
)
    ensures order_after { order.new ≡ order_table text.now records.now (length order.old) (length scratch.old) }
    ensures scratch_after { scratch.new ≡ replicate (length scratch.old) 0 }
{
    ranks::order_names(text, records, order, scratch);
}

// The next line along an order of each scene, from the cursors held: 1 for a line and 0 for the end, and in place of what the array
// holds the cursors to go on from, side, number, nth and state.
#[unsafe(no_mangle)]
pub extern "C" fn kribbelsteen_next_ordered(
    left: &[u8],
    left_records: &[u32],
    left_reals: &[f64],
    left_order: &[u32],
    right: &[u8],
    right_records: &[u32],
    right_reals: &[f64],
    right_order: &[u32],
    line: &mut [usize; 6],
) -> u32
    ensures { HostOrdered (scene left.now left_records.now left_reals.now left_order.now) (scene right.now right_records.now right_reals.now right_order.now) line.old result line.new }
{
    let ordered_left = OrderedScene {
        scene: Scene {
            text: left,
            records: left_records,
            reals: left_reals,
        },
        order: left_order,
    };
    let ordered_right = OrderedScene {
        scene: Scene {
            text: right,
            records: right_records,
            reals: right_reals,
        },
        order: right_order,
    };
    host_lines::tell_ordered(ordered_left, ordered_right, line)
}

// Writes a scene out: the reason or 0, and the place of a refusal and the length of the text.
#[unsafe(no_mangle)]
pub extern "C" fn kribbelsteen_write(
    mode: u32,
    text: &[u8],
    records: &[u32],
    reals: &[f64],
    out: &mut [u8],
    answer: &mut [usize; 2],
) -> u32
    ensures { HostWrites mode text.now records.now reals.now out.old result answer.new out.new }
{
    host_writing::tell_written(mode, text, records, reals, out, answer)
}

// Writes a scene out with its glass moved: the reason or 0, and the place of a refusal and the length of the text.
#[unsafe(no_mangle)]
pub extern "C" fn kribbelsteen_move_glass(
    mode: u32,
    direction: u32,
    text: &[u8],
    records: &[u32],
    reals: &[f64],
    out: &mut [u8],
    answer: &mut [usize; 2],
) -> u32
    ensures { HostMoves mode direction text.now records.now reals.now out.old result answer.new out.new }
{
    host_moving::tell_moved(mode, direction, text, records, reals, out, answer)
}

// Writes a scene sorted: the reason or 0, and the place of a refusal and the length of the text.
#[unsafe(no_mangle)]
pub extern "C" fn kribbelsteen_sort(
    mode: u32,
    text: &[u8],
    records: &[u32],
    reals: &[f64],
    out: &mut [u8],
    answer: &mut [usize; 2],
) -> u32
    ensures { HostSorts mode text.now records.now reals.now out.old result answer.new out.new }
{
    host_sorting::tell_sorted(mode, text, records, reals, out, answer)
}

// Whether the order of two entries mattered: 0 free, 1 held, or the refusal's number, and the entry that a chain goes to first, with the
// one whose name binds.
#[unsafe(no_mangle)]
pub extern "C" fn kribbelsteen_mattered(
    text: &[u8],
    records: &[u32],
    count: usize,
    first: usize,
    second: usize,
    answer: &mut [usize; 2],
) -> u32
    ensures value { result ≡ kind_of (order_of text.now records.now count first second) }
    ensures answer_after { answer.new ≡ values_of (order_of text.now records.now count first second) }
{
    host_precedence::tell_order(text, records, count, first, second, answer)
}

// Proposes a join of two hands' edits of a base: the reason or 0, and the text a refusal names, its place, and the length and counts of
// the joined text.
#[unsafe(no_mangle)]
pub extern "C" fn kribbelsteen_join(
    mode: u32,
    base: &[u8],
    left: &[u8],
    right: &[u8],
    records: &mut [u32],
    reals: &mut [f64],
    out: &mut [u8],
    answer: &mut [usize; 5],
) -> u32
    ensures { HostProposes mode base.now left.now right.now records.old reals.old out.old result answer.new records.new reals.new out.new }
{
    host_joining::tell_proposed(mode, base, left, right, records, reals, out, answer)
}

// Checks a typed join: as above.
#[unsafe(no_mangle)]
pub extern "C" fn kribbelsteen_check_join(
    mode: u32,
    base: &[u8],
    left: &[u8],
    right: &[u8],
    typed: &[u8],
    records: &mut [u32],
    reals: &mut [f64],
    out: &mut [u8],
    answer: &mut [usize; 5],
) -> u32
    ensures { HostChecks mode base.now left.now right.now typed.now records.old reals.old out.old result answer.new records.new reals.new out.new }
{
    host_joining::tell_checked(mode, base, left, right, typed, records, reals, out, answer)
}

// A ray on a sphere: 0 hit, 1 miss, or the refusal's number, and the distance.
#[unsafe(no_mangle)]
pub extern "C" fn kribbelsteen_sphere(
    ray: &[f64; 6],
    sphere: &[f64; 4],
    answer: &mut [f64; 1],
) -> u32
    ensures value { result ≡ hit_kind (sphere_hit default_least (ray_in ray.now) (sphere_in sphere.now)) }
    ensures answer_after { answer.new ≡ hit_values (sphere_hit default_least (ray_in ray.now) (sphere_in sphere.now)) }
{
    host_rays::tell_sphere(ray, sphere, answer)
}

// The same above a least distance.
#[unsafe(no_mangle)]
pub extern "C" fn kribbelsteen_sphere_above(
    ray: &[f64; 6],
    sphere: &[f64; 4],
    least: f64,
    answer: &mut [f64; 1],
) -> u32
    ensures value { result ≡ hit_kind (sphere_hit least (ray_in ray.now) (sphere_in sphere.now)) }
    ensures answer_after { answer.new ≡ hit_values (sphere_hit least (ray_in ray.now) (sphere_in sphere.now)) }
{
    host_rays::tell_sphere_above(ray, sphere, least, answer)
}

// A ray on a ring: 0 hit, 1 miss, or the refusal's number, and the distance.
#[unsafe(no_mangle)]
pub extern "C" fn kribbelsteen_ring(ray: &[f64; 6], ring: &[f64; 8], answer: &mut [f64; 1]) -> u32
    ensures value { result ≡ hit_kind (ring_hit default_least (ray_in ray.now) (ring_in ring.now)) }
    ensures answer_after { answer.new ≡ hit_values (ring_hit default_least (ray_in ray.now) (ring_in ring.now)) }
{
    host_rays::tell_ring(ray, ring, answer)
}

// The same above a least distance.
#[unsafe(no_mangle)]
pub extern "C" fn kribbelsteen_ring_above(
    ray: &[f64; 6],
    ring: &[f64; 8],
    least: f64,
    answer: &mut [f64; 1],
) -> u32
    ensures value { result ≡ hit_kind (ring_hit least (ray_in ray.now) (ring_in ring.now)) }
    ensures answer_after { answer.new ≡ hit_values (ring_hit least (ray_in ray.now) (ring_in ring.now)) }
{
    host_rays::tell_ring_above(ray, ring, least, answer)
}

// A ray on a polygon: 0 hit, 1 miss, or the refusal's number, and the distance.
#[unsafe(no_mangle)]
pub extern "C" fn kribbelsteen_polygon(
    ray: &[f64; 6],
    corners: &[f64],
    answer: &mut [f64; 1],
) -> u32
    ensures value { result ≡ hit_kind (polygon_hit default_least (ray_in ray.now) corners.now) }
    ensures answer_after { answer.new ≡ hit_values (polygon_hit default_least (ray_in ray.now) corners.now) }
{
    host_polygon::tell_polygon(ray, corners, answer)
}

// The same above a least distance.
#[unsafe(no_mangle)]
pub extern "C" fn kribbelsteen_polygon_above(
    ray: &[f64; 6],
    corners: &[f64],
    least: f64,
    answer: &mut [f64; 1],
) -> u32
    ensures value { result ≡ hit_kind (polygon_hit least (ray_in ray.now) corners.now) }
    ensures answer_after { answer.new ≡ hit_values (polygon_hit least (ray_in ray.now) corners.now) }
{
    host_polygon::tell_polygon_above(ray, corners, least, answer)
}

// A ray on a polygon of a table: 0 hit, 1 miss, or the refusal's number, and the distance.
#[unsafe(no_mangle)]
pub extern "C" fn kribbelsteen_polygon_in_table(
    ray: &[f64; 6],
    records: &[u32],
    count: usize,
    number: usize,
    reals: &[f64],
    answer: &mut [f64; 1],
) -> u32
    ensures value { result ≡ hit_kind (hit_in_table default_least (ray_in ray.now) records.now count number reals.now) }
    ensures answer_after { answer.new ≡ hit_values (hit_in_table default_least (ray_in ray.now) records.now count number reals.now) }
{
    host_polygon::tell_in_table(ray, records, count, number, reals, answer)
}

// The same above a least distance.
#[unsafe(no_mangle)]
pub extern "C" fn kribbelsteen_polygon_in_table_above(
    ray: &[f64; 6],
    records: &[u32],
    count: usize,
    number: usize,
    reals: &[f64],
    least: f64,
    answer: &mut [f64; 1],
) -> u32
    ensures value { result ≡ hit_kind (hit_in_table least (ray_in ray.now) records.now count number reals.now) }
    ensures answer_after { answer.new ≡ hit_values (hit_in_table least (ray_in ray.now) records.now count number reals.now) }
{
    host_polygon::tell_in_table_above(ray, records, count, number, reals, least, answer)
}

// Fresnel's coefficients: 0 for coefficients, 1 total reflection, or the refusal's number, and FTE, FTM, F.
#[unsafe(no_mangle)]
pub extern "C" fn kribbelsteen_fresnel(cos1: f64, n1: f64, n2: f64, answer: &mut [f64; 3]) -> u32
    ensures value { result ≡ reflection_kind (fresnel_of cos1 n1 n2) }
    ensures answer_after { answer.new ≡ reflection_values (fresnel_of cos1 n1 n2) }
{
    host_rays::tell_reflection(cos1, n1, n2, answer)
}

// The factors of a pane of glass: 0 or the refusal's number, and what goes through and what comes back.
#[unsafe(no_mangle)]
pub extern "C" fn kribbelsteen_pane_factors(te: f64, tm: f64, ct: f64, answer: &mut [f64; 2]) -> u32
    ensures value { result ≡ factors_kind (factors_of te tm ct) }
    ensures answer_after { answer.new ≡ factors_values (factors_of te tm ct) }
{
    host_pane::tell_factors(te, tm, ct, answer)
}

// The transmissivity of a transmittance: 0 or the refusal's number, and the value.
#[unsafe(no_mangle)]
pub extern "C" fn kribbelsteen_transmissivity(transmittance: f64, answer: &mut [f64; 1]) -> u32
    ensures value { result ≡ transmitted_kind (transmissivity_of transmittance) }
    ensures answer_after { answer.new ≡ transmitted_values (transmissivity_of transmittance) }
{
    host_pane::tell_transmissivity(transmittance, answer)
}

// The largest double whose exact square is at most x; NaN where there is none.
#[unsafe(no_mangle)]
pub extern "C" fn kribbelsteen_root(x: f64) -> f64
    ensures { result ≡ root_of x }
{
    root::root(x)
}
