// A numeral read where it stands in a text, in one pass over its bytes. It is right where it finds one: what is written in a
// rarer way, with a plus sign, an `E` or more digits than fit, is left to the slower reader.
#![tactic(auto)]

ghost use Rattle.std.specs.Prelude.{◌≡◌, cond, ◌+◌, ◌^◌, ◌<◌, IfSome};
ghost use Rattle.numeral_parts.specs.Saturated.{limit};
ghost use Rattle.numeral_scan.specs.Pieces.{stands, RowAt, FractionAt, ExponentAt, PowerAt};
ghost use Rattle.numeral_scan.specs.Scan.{ReadAt};

// Below this a number may grow by one digit more and stays below the limit.
const ROOM: u64 = 100_000_000_000_000;

// Digits: the place behind them, and the number they read as behind those before.
#[derive(Clone, Copy)]
struct Row {
    end: usize,
    value: u64,
}

// An exponent: the place behind it, and the powers of ten up and down.
#[derive(Clone, Copy)]
struct Power {
    end: usize,
    up: u64,
    down: u64,
}

// A numeral: the place behind it, and its value.
#[derive(Clone, Copy)]
pub struct Scanned {
    pub end: usize,
    pub value: f64,
}

// The digits from `at` on, as far as the number that they read as behind n stays below the limit.
fn row_at(text: &[u8], at: usize, n: u64) -> Row
    requires { n < limit }
    ensures { RowAt text.now at n result }
{
    let mut value = n;
    for i in at..text.len() {
        let b = text[i];
        if !numeral_parts::is_digit(b) || ROOM <= value {
            return Row { end: i, value };
        }
        value = value * 10 + u64::from(b - b'0');
    }
    Row {
        end: at.max(text.len()),
        value,
    }
}

// Whether the byte b stands at a place.
fn has(text: &[u8], at: usize, b: u8) -> bool
    ensures { result ≡ stands text.now at b }
{
    text.get(at) == Some(&b)
}

// The place behind the byte b, if it stands there.
fn past(text: &[u8], at: usize, b: u8) -> usize
    ensures { result ≡ cond (stands text.now at b) (at + 1) at }
{
    if has(text, at, b) { at + 1 } else { at }
}

// The whole digits with those behind the point, if there is one.
fn fraction_at(text: &[u8], whole: Row) -> Row
    requires { whole.value < limit }
    ensures { FractionAt text.now whole.end whole.value result }
{
    let point = whole.end;
    if has(text, point, b'.') {
        return row_at(text, point + 1, whole.value);
    }
    whole
}

// What stands behind the `e`: a minus or none, and one to three digits. `down` powers are there already.
fn exponent_at(text: &[u8], at: usize, down: u64) -> Option<Power>
    requires { down < 2 ^ 63 }
    ensures { IfSome result (ExponentAt text.now at down) }
{
    let minus = has(text, at, b'-');
    let first = past(text, at, b'-');
    let digits = row_at(text, first, 0);
    let end = digits.end;
    let n = end - first;
    if n == 0 || 3 < n {
        return None;
    }
    if minus {
        return Some(Power {
            end,
            up: 0,
            down: down + digits.value,
        });
    }
    Some(Power {
        end,
        up: digits.value,
        down,
    })
}

// The `e` and the exponent, if there is one.
fn power_at(text: &[u8], mark: usize, down: u64) -> Option<Power>
    requires { down < 2 ^ 63 }
    ensures { IfSome result (PowerAt text.now mark down) }
{
    if has(text, mark, b'e') {
        return exponent_at(text, mark + 1, down);
    }
    Some(Power {
        end: mark,
        up: 0,
        down,
    })
}

// The numeral that starts at a place: a minus or none, digits with at most one point, and an exponent or none.
pub fn numeral_from(text: &[u8], place: usize) -> Option<Scanned>
    ensures { IfSome result (ReadAt text.now place) }
{
    let negative = has(text, place, b'-');
    let first = past(text, place, b'-');
    let whole = row_at(text, first, 0);
    let point = whole.end;
    let all = fraction_at(text, whole);
    let behind = all.end.saturating_sub(point).saturating_sub(1);
    if point - first + behind == 0 {
        return None;
    }
    let power = power_at(text, all.end, behind as u64)?;
    let end = power.end;
    if !lexer::ends_word(text, end) {
        return None;
    }
    let value = numeral::exact(negative, all.value, power.up, power.down)?;
    Some(Scanned { end, value })
}
