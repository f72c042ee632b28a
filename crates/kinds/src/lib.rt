// The 25 types: their groups, counts and house rules.
#![tactic(auto)]

ghost use Rattle.std.specs.Prelude.{◌≡◌};
ghost use Rattle.scene.specs.HouseRules.{breach_at, house_rules, is_above0, is_at_least0, is0};
ghost use Rattle.scene.specs.Types.{allows, is_material, is_modifier, is_retired, is_surface, kind_of, reals_allowed, strings_allowed};
ghost use Rattle.kinds.specs.Rules.{cone_breach, is_ruled, ring_breach, rule_of};

use scene::Mode;

// A type is a number here and no enum: records lie in a lent table of numbers, which may hold one that is no type's.
const SOURCE: u32 = 1;

const SPHERE: u32 = 2;

const BUBBLE: u32 = 3;

pub const POLYGON: u32 = 4;

const CONE: u32 = 5;

const CUP: u32 = 6;

const CYLINDER: u32 = 7;

const TUBE: u32 = 8;

const RING: u32 = 9;

const LIGHT: u32 = 10;

const ILLUM: u32 = 11;

const GLOW: u32 = 12;

const SPOTLIGHT: u32 = 13;

const MIRROR: u32 = 14;

const PLASTIC: u32 = 15;

const METAL: u32 = 16;

const TRANS: u32 = 17;

const PLASTIC2: u32 = 18;

const METAL2: u32 = 19;

const TRANS2: u32 = 20;

const DIELECTRIC: u32 = 21;

const INTERFACE: u32 = 22;

pub const GLASS: u32 = 23;

const ANTIMATTER: u32 = 24;

pub const MIXFUNC: u32 = 25;

// Whether a type is a surface.
pub fn is_surface(t: u32) -> bool
    ensures { result ≡ is_surface t }
{
    matches!(t, SOURCE..=RING)
}

// Whether a type is a modifier: a material, or a mixture of them.
pub fn is_modifier(t: u32) -> bool
    ensures { result ≡ is_modifier t }
{
    matches!(t, LIGHT..=MIXFUNC)
}

// Whether a type is a material.
pub fn is_material(t: u32) -> bool
    ensures { result ≡ is_material t }
{
    matches!(t, LIGHT..=ANTIMATTER)
}

// Whether a type is one that the reading no longer accepts.
pub fn is_retired(mode: Mode, t: u32) -> bool
    ensures { result ≡ is_retired mode t }
{
    match mode {
        Mode::New => t == ANTIMATTER,
        Mode::Archive => false,
    }
}

// A rule on a count.
#[derive(Clone, Copy, PartialEq, Eq, Debug)]
enum Rule {
    Exactly(u32),
    AtLeast(u32),
    ThreeOrFour,
    Corners,
    Any,
}

impl Rule {
    // Corners are a multiple of 3, at least 9.
    fn allows(self, n: u32) -> bool
        ensures { result ≡ allows (rule_of self) n }
    {
        match self {
            Rule::Exactly(count) => n == count,
            Rule::AtLeast(count) => count <= n,
            Rule::ThreeOrFour => (n == 3) | (n == 4),
            Rule::Corners => (9 <= n) & (n % 3 == 0),
            Rule::Any => true,
        }
    }
}

// The rules on a type's counts of strings and of reals. A `match` on numbers is one look-up; a constant table would be laid out anew at
// each use.
fn rules(t: u32) -> (Rule, Rule)
    ensures strings { rule_of result.0 ≡ (kind_of t).strings }
    ensures reals { rule_of result.1 ≡ (kind_of t).reals }
{
    use Rule::{Any, AtLeast, Corners, Exactly, ThreeOrFour};
    match t {
        SOURCE => (Exactly(0), Exactly(4)),
        SPHERE => (Exactly(0), Exactly(4)),
        BUBBLE => (Exactly(0), Exactly(4)),
        POLYGON => (Exactly(0), Corners),
        CONE => (Exactly(0), Exactly(8)),
        CUP => (Exactly(0), Exactly(8)),
        CYLINDER => (Exactly(0), Exactly(7)),
        TUBE => (Exactly(0), Exactly(7)),
        RING => (Exactly(0), Exactly(8)),
        LIGHT => (Exactly(0), Exactly(3)),
        ILLUM => (Exactly(1), Exactly(3)),
        GLOW => (Exactly(0), Exactly(4)),
        SPOTLIGHT => (Exactly(0), Exactly(7)),
        MIRROR => (Exactly(1), Exactly(3)),
        PLASTIC => (Exactly(0), Exactly(5)),
        METAL => (Exactly(0), Exactly(5)),
        TRANS => (Exactly(0), Exactly(7)),
        PLASTIC2 => (AtLeast(4), Exactly(6)),
        METAL2 => (AtLeast(4), Exactly(6)),
        TRANS2 => (AtLeast(4), Exactly(8)),
        DIELECTRIC => (Exactly(0), Exactly(5)),
        INTERFACE => (Exactly(0), Exactly(8)),
        GLASS => (Exactly(0), ThreeOrFour),
        ANTIMATTER => (AtLeast(1), Exactly(0)),
        MIXFUNC => (AtLeast(4), Any),
        _ => (Any, Any),
    }
}

// Whether a type may have n strings. A number past the last type may have any.
pub fn strings_allowed(t: u32, n: u32) -> bool
    ensures { result ≡ strings_allowed t n }
{
    rules(t).0.allows(n)
}

// Whether a type may have n reals.
pub fn reals_allowed(t: u32, n: u32) -> bool
    ensures { result ≡ reals_allowed t n }
{
    rules(t).1.allows(n)
}

fn is_above_0(x: f64) -> bool
    ensures { result ≡ is_above0 x }
{
    0.0 < x
}

fn is_at_least_0(x: f64) -> bool
    ensures { result ≡ is_at_least0 x }
{
    0.0 <= x
}

fn is_0(x: f64) -> bool
    ensures { result ≡ is0 x }
{
    x == 0.0
}

// Whether real number `count` of a cone or a cup breaks a house rule.
fn breaks_cone(count: u32, x: f64, previous: f64) -> bool
    ensures { result ≡ cone_breach count x previous }
{
    match count {
        7 => !is_at_least_0(x),
        8 => !is_at_least_0(x) | (is_0(x) & is_0(previous)),
        _ => false,
    }
}

// Whether real number `count` of a ring does.
fn breaks_ring(count: u32, x: f64, previous: f64, first: f64) -> bool
    ensures { result ≡ ring_breach count x previous first }
{
    match count {
        6 => is_0(x) & is_0(previous) & is_0(first),
        7 => !is_at_least_0(x),
        8 => !(previous < x),
        _ => false,
    }
}

// Whether a type has a house rule.
#[tactic(auto, using(crate::proofs::HouseLaws::ruled_is))]
pub fn is_ruled(t: u32) -> bool
    ensures { result ≡ is_ruled house_rules t }
{
    is_surface(t) & (t != POLYGON) | (PLASTIC2 <= t) & (t <= GLASS)
}

// Whether real number `count` of a type, after `previous` and before that `first`, breaks a house rule.
pub fn breaches(t: u32, count: u32, x: f64, previous: f64, first: f64) -> bool
    ensures { result ≡ breach_at house_rules t count x previous first }
{
    match t {
        SOURCE => (3 == count) & (is_0(x) & is_0(previous) & is_0(first)),
        SPHERE | BUBBLE => (4 == count) & !is_above_0(x),
        CONE | CUP => breaks_cone(count, x, previous),
        CYLINDER | TUBE => (7 == count) & !is_above_0(x),
        RING => breaks_ring(count, x, previous, first),
        PLASTIC2 | METAL2 | TRANS2 => ((5 == count) & !is_above_0(x))
            | ((6 == count) & !is_above_0(x)),
        DIELECTRIC | GLASS => (4 == count) & !is_above_0(x),
        INTERFACE => ((4 == count) & !is_above_0(x)) | ((8 == count) & !is_above_0(x)),
        _ => false,
    }
}
