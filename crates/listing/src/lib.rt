// The lines of a listing, put into a lent buffer.
#![tactic(auto)]

ghost use Rattle.std.specs.Prelude.{◌++◌, ◌≡◌, min, length};
ghost use Rattle.buffer.specs.Decimal.{decimal};
ghost use Rattle.buffer.specs.Put.{put, behind};
ghost use Rattle.laws.specs.Bytes.{bytes};
ghost use Rattle.listing.specs.Listing.{head_lines, line_of, links_of, mode_line, row_line};

use buffer::{put_bytes, put_field};
use fields::{put_kind, put_last, put_text};
use scene::Mode;

// The first lines of a listing, as much of them as the buffer holds. Answers how many bytes that is.
pub fn head_lines(
    out: &mut [u8],
    mode: Mode,
    reason: u32,
    place: usize,
    primitives: usize,
    reals: usize,
) -> usize
    ensures out_after { out.new ≡ put out.old 0 (head_lines mode (record { reason = reason; place = place; primitives = primitives; reals = reals })) }
    ensures value { result ≡ min (length (head_lines mode (record { reason = reason; place = place; primitives = primitives; reals = reals }))) (length out.old) }
{
    if reason == 0 {
        let at = put_mode(out, mode);
        return put_pair(out, at, b"primitives=", primitives, b" reals=", reals);
    }
    put_pair(out, 0, b"refused=", reason as usize, b" place=", place)
}

// The line that tells an archive reading from a new one, which has none.
fn put_mode(out: &mut [u8], mode: Mode) -> usize
    ensures out_after { out.new ≡ put out.old 0 (mode_line mode) }
    ensures value { result ≡ behind out.old 0 (mode_line mode) }
{
    match mode {
        Mode::New => put_bytes(out, 0, b""),
        Mode::Archive => put_bytes(out, 0, b"archive=1\n"),
    }
}

// A line of two numbers.
fn put_pair(out: &mut [u8], at: usize, first: &[u8], n: usize, second: &[u8], m: usize) -> usize
    ensures out_after { out.new ≡ put out.old at (first.now ++ decimal n ++ (second.now ++ decimal m ++ bytes "\n")) }
    ensures value { result ≡ behind out.old at (first.now ++ decimal n ++ (second.now ++ decimal m ++ bytes "\n")) }
{
    let behind_first = put_field(out, at, first, n);
    put_last(out, behind_first, second, m)
}

// The line of record n, from 1, as much of it as the buffer holds. Answers how many bytes that is. What the table does
// not have reads as 0, and what the text does not have is left out.
pub fn row_line(out: &mut [u8], text: &[u8], records: &[u32], n: usize) -> usize
    ensures out_after { out.new ≡ put out.old 0 (row_line text.now records.now n) }
    ensures value { result ≡ min (length (row_line text.now records.now n)) (length out.old) }
{
    put_line(
        out,
        n,
        table::field(records, n, table::MODIFIER),
        table::field(records, n, table::TARGET),
        table::field(records, n, table::KIND),
        table::name_of(text, records, n),
        table::field(records, n, table::NEXT),
    )
}

// A record's line.
fn put_line(
    out: &mut [u8],
    n: usize,
    modifier: u32,
    target: u32,
    kind: u32,
    name: &[u8],
    next: u32,
) -> usize
    ensures out_after { out.new ≡ put out.old 0 (line_of n modifier target kind name.now next) }
    ensures value { result ≡ min (length (line_of n modifier target kind name.now next)) (length out.old) }
{
    let mut at = put_links(out, n, modifier, target, kind);
    at = put_text(out, at, b" name=", name);
    put_last(out, at, b" next=", next as usize)
}

// A record's line as far as its type.
fn put_links(out: &mut [u8], n: usize, modifier: u32, target: u32, kind: u32) -> usize
    ensures out_after { out.new ≡ put out.old 0 (links_of n modifier target kind) }
    ensures value { result ≡ behind out.old 0 (links_of n modifier target kind) }
{
    let mut at = put_field(out, 0, b"no=", n);
    at = put_field(out, at, b" mod=", modifier as usize);
    at = put_field(out, at, b" alias=", target as usize);
    put_kind(out, at, kind)
}
