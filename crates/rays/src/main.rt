// The answer to each case on standard input: a ray at a sphere, a ring or a polygon, a Fresnel value, a pane of glass or a root. A
// case is a line: its kind, and the bits of its doubles in hex. A ray's least distance is 0, which the lamp tracer passes by name;
// kinds that end in _above have it as the last number, and those in _default name none.
#![tactic(auto)]

ghost use Rattle.std.specs.Prelude.{◌≤◌, IfSome};

use fresnel::Reflection;
use hits::{Ray, Ring, Sphere};
use pane::Interreflection;
use scene::Reason;
use std::io::Read;
use steps::Vector;

// A polygon of 40 corners with a least distance has the most.
const NUMBERS: usize = 127;

// Enough for it, whose line has 2,172 bytes.
const LINE: usize = 2304;

// What a digit in lower case counts.
fn hex_digit(b: u8) -> Option<u8> {
    match b {
        b'0'..=b'9' => Some(b - b'0'),
        b'a'..=b'f' => Some(b - b'a' + 10),
        _ => None,
    }
}

// Digit by digit: `u64::from_str_radix` would take upper case, a sign and fewer digits too.
fn bits_of(word: &[u8]) -> Option<u64> {
    if word.len() != 16 {
        return None;
    }
    let mut bits: u64 = 0;
    for b in word {
        bits = bits << 4 | hex_digit(*b)? as u64;
    }
    Some(bits)
}

// A NaN has many patterns, and from_bits takes none of them.
fn double_of(bits: u64) -> f64 {
    if 0x7ff0000000000000 < bits % 0x8000000000000000 {
        return f64::NAN;
    }
    f64::from_bits(bits)
}

// Reads the words from `at` on as doubles, and how many they are; none where one is malformed or there is no room for all.
fn read_numbers(line: &[u8], at: usize, numbers: &mut [f64; NUMBERS]) -> Option<usize>
    ensures { IfSome result (λ count. count ≤ 127) }
{
    let mut end = at;
    for (count, number) in numbers.iter_mut().enumerate() {
        let word = lexer::word_bytes(line, end);
        if word.is_empty() {
            return Some(count);
        }
        *number = double_of(bits_of(word)?);
        end = lexer::past_word(line, end);
    }
    lexer::word_bytes(line, end).is_empty().then_some(NUMBERS)
}

// A word, and the bits of the doubles behind it, each after a blank. A NaN has none of its own.
fn print_values(rt: &impl Print, word: &str, values: &[f64]) {
    let _ = print!(rt; "{word}");
    for x in values {
        if x.is_nan() {
            let _ = print!(rt; " nan");
        } else {
            let bits = x.to_bits();
            let _ = print!(rt; " {bits:016x}");
        }
    }
    let _ = print!(rt; "\n");
}

fn print_refusal(rt: &impl Print, reason: Reason) {
    let _ = println!(rt; "refused {}", reason.number());
}

fn print_hit(rt: &impl Print, hit: Result<Option<f64>, Reason>) {
    match hit {
        Ok(Some(t)) => print_values(rt, "at", &[t]),
        Ok(None) => print_values(rt, "miss", &[]),
        Err(reason) => print_refusal(rt, reason),
    }
}

fn print_reflection(rt: &impl Print, reflection: Result<Reflection, Reason>) {
    match reflection {
        Ok(Reflection::Coefficients { te, tm, f }) => print_values(
            rt,
            "coefficients",
            &[te, tm, f],
        ),
        Ok(Reflection::Total) => print_values(rt, "total", &[]),
        Err(reason) => print_refusal(rt, reason),
    }
}

fn print_factors(rt: &impl Print, factors: Result<Interreflection, Reason>) {
    match factors {
        Ok(Interreflection { through, back }) => print_values(rt, "factors", &[through, back]),
        Err(reason) => print_refusal(rt, reason),
    }
}

fn print_transmissivity(rt: &impl Print, transmissivity: Result<f64, Reason>) {
    match transmissivity {
        Ok(t) => print_values(rt, "transmissivity", &[t]),
        Err(reason) => print_refusal(rt, reason),
    }
}

fn vector(x: f64, y: f64, z: f64) -> Vector {
    Vector { x, y, z }
}

// A ray, and the numbers of the shape behind it.
fn ray_of(numbers: &[f64]) -> Option<(Ray, &[f64])> {
    match numbers {
        [ox, oy, oz, dx, dy, dz, shape @ ..] => {
            let ray = Ray {
                origin: vector(*ox, *oy, *oz),
                direction: vector(*dx, *dy, *dz),
            };
            Some((ray, shape))
        }
        _ => None,
    }
}

fn sphere_of(numbers: &[f64]) -> Option<Sphere> {
    match numbers {
        [x, y, z, radius] => Some(Sphere {
            centre: vector(*x, *y, *z),
            radius: *radius,
        }),
        _ => None,
    }
}

fn ring_of(numbers: &[f64]) -> Option<Ring> {
    match numbers {
        [x, y, z, nx, ny, nz, inner, outer] => Some(Ring {
            centre: vector(*x, *y, *z),
            normal: vector(*nx, *ny, *nz),
            inner: *inner,
            outer: *outer,
        }),
        _ => None,
    }
}

// Answers a ray's case; none where it is no ray's.
fn hit_of(kind: &[u8], numbers: &[f64]) -> Option<Result<Option<f64>, Reason>> {
    let (ray, shape) = ray_of(numbers)?;
    match kind {
        b"sphere" => Some(hits::sphere_hit_above(ray, sphere_of(shape)?, 0.0)),
        b"sphere_default" => Some(hits::sphere_hit(ray, sphere_of(shape)?)),
        b"ring" => Some(hits::ring_hit_above(ray, ring_of(shape)?, 0.0)),
        b"ring_default" => Some(hits::ring_hit(ray, ring_of(shape)?)),
        b"polygon" => Some(polygon::polygon_hit_above(ray, shape, 0.0)),
        b"polygon_default" => Some(polygon::polygon_hit(ray, shape)),
        _ => hit_above(kind, ray, shape),
    }
}

// With a least distance as the last number.
fn hit_above(kind: &[u8], ray: Ray, numbers: &[f64]) -> Option<Result<Option<f64>, Reason>> {
    let [shape @ .., least] = numbers else {
        return None;
    };
    match kind {
        b"sphere_above" => Some(hits::sphere_hit_above(ray, sphere_of(shape)?, *least)),
        b"ring_above" => Some(hits::ring_hit_above(ray, ring_of(shape)?, *least)),
        b"polygon_above" => Some(polygon::polygon_hit_above(ray, shape, *least)),
        _ => None,
    }
}

fn print_answer(rt: &impl Print, kind: &[u8], numbers: &[f64]) {
    match (kind, numbers) {
        (b"root", [x]) => print_values(rt, "root", &[root::root(*x)]),
        (b"fresnel", [cos1, n1, n2]) => print_reflection(rt, fresnel::fresnel(*cos1, *n1, *n2)),
        (b"factors", [te, tm, ct]) => print_factors(rt, pane::factors(*te, *tm, *ct)),
        (b"transmissivity", [t]) => print_transmissivity(rt, pane::transmissivity(*t)),
        _ => match hit_of(kind, numbers) {
            Some(hit) => print_hit(rt, hit),
            None => print_values(rt, "bad", &[]),
        },
    }
}

fn answer(rt: &impl Print, line: &[u8]) {
    let kind = lexer::word_bytes(line, 0);
    let mut numbers = [0.0; NUMBERS];
    match read_numbers(line, lexer::past_word(line, 0), &mut numbers) {
        Some(count) => print_answer(rt, kind, &numbers[..count]),
        None => print_values(rt, "bad", &[]),
    }
}

// A line as far as it is read. The length of one that is too long is one above the room.
#[derive(Drop)]
struct Line {
    bytes: [u8; LINE],
    len: usize,
}

impl Line {
    fn answer(&self, rt: &impl Print) {
        match self.bytes.get(..self.len) {
            Some(line) => answer(rt, line),
            None => print_values(rt, "bad", &[]),
        }
    }

    // Takes one byte more, as far as there is room, and answers the line where the byte ends it.
    fn take(&mut self, rt: &impl Print, b: u8) {
        if b == b'\n' {
            self.answer(rt);
            self.len = 0;
        } else if self.len < LINE {
            self.bytes[self.len] = b;
            self.len += 1;
        } else {
            self.len = LINE + 1;
        }
    }
}

// The last line may have no end of its own. The end has to be seen: cases that a failed read cut short are not all.
fn answer_rest(rt: &impl Print, from: &mut impl Read, line: &Line) {
    let mut more = [0u8; 1];
    if !matches!(from.read(&mut more), Ok(0)) {
        let _ = println!(rt; "unreadable");
    } else if 0 < line.len {
        line.answer(rt);
    }
}

fn take_all(rt: &impl Print, line: &mut Line, bytes: &[u8]) {
    for b in bytes {
        line.take(rt, *b);
    }
}

// A loop has to end: 65,536 buffers are 4 GiB.
fn main(rt: HostRuntime) {
    let mut from = rt.reader();
    let mut buffer = [0u8; 65536];
    let mut line = Line {
        bytes: [0; LINE],
        len: 0,
    };
    for _ in 0..65536 {
        let n = input::read_full(&mut from, &mut buffer);
        take_all(&rt, &mut line, &buffer[..n]);
        if n < buffer.len() {
            break;
        }
    }
    answer_rest(&rt, &mut from, &line);
}
