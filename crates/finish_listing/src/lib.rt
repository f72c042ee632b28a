// The line of a surface with its finish, put into a lent buffer.
#![tactic(auto)]

ghost use Rattle.std.specs.Prelude.{◌≡◌, min, length};
ghost use Rattle.buffer.specs.Put.{put, behind};
ghost use Rattle.finish_listing.specs.FinishLine.{finish_line, material_of, surface_of};

use buffer::put_field;
use fields::{put_kind, put_last, put_text};
use table::{KIND, LINE, WIDTH};

// A record's line as far as its name.
fn put_surface(out: &mut [u8], text: &[u8], records: &[u32], n: usize) -> usize
    ensures out_after { out.new ≡ put out.old 0 (surface_of text.now records.now n) }
    ensures value { result ≡ behind out.old 0 (surface_of text.now records.now n) }
{
    let mut at = put_field(out, 0, b"no=", n);
    at = put_field(out, at, b" line=", table::field(records, n, LINE) as usize);
    at = put_kind(out, at, table::field(records, n, KIND));
    put_text(out, at, b" name=", table::name_of(text, records, n))
}

// The part of the line about the finish.
fn put_material(out: &mut [u8], at: usize, text: &[u8], records: &[u32], m: usize) -> usize
    ensures out_after { out.new ≡ put out.old at (material_of text.now records.now m) }
    ensures value { result ≡ behind out.old at (material_of text.now records.now m) }
{
    let name = table::name_of(text, records, m);
    let mut behind = put_field(out, at, b" finish=", m);
    behind = put_text(out, behind, b" finish_name=", name);
    behind = put_field(
        out,
        behind,
        b" finish_line=",
        table::field(records, m, LINE) as usize,
    );
    behind = put_field(out, behind, b" nth=", keys::key_nth(text, records, m));
    let of = keys::times(text, records, records.len() / WIDTH, name);
    put_field(out, behind, b" of=", of)
}

// The line of record n, whose finish is record m over so many links, as much of it as the buffer holds. Answers how many bytes that
// is. The table is lent up to its last record.
pub fn finish_line(
    out: &mut [u8],
    text: &[u8],
    records: &[u32],
    n: usize,
    m: usize,
    links: usize,
) -> usize
    ensures out_after { out.new ≡ put out.old 0 (finish_line text.now records.now n m links) }
    ensures value { result ≡ min (length (finish_line text.now records.now n m links)) (length out.old) }
{
    let mut at = put_surface(out, text, records, n);
    at = put_material(out, at, text, records, m);
    put_last(out, at, b" links=", links)
}
