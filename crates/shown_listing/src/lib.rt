// The line of a surface with the materials that it may show, put into a lent buffer.
#![tactic(auto)]

ghost use Rattle.std.specs.Prelude.{◌++◌, ◌≡◌, min, length};
ghost use Rattle.buffer.specs.Decimal.{decimal};
ghost use Rattle.buffer.specs.Put.{put, behind};
ghost use Rattle.shown_listing.specs.ShownLine.{joined, label, shown_line};

use buffer::{put_bytes, put_decimal, put_field};
use fields::put_text;

// Number k, from 0, of a list: behind a comma, but for the first.
fn put_number(out: &mut [u8], at: usize, k: usize, n: u32) -> usize
    ensures out_after { out.new ≡ put out.old at (label k ++ decimal n) }
    ensures value { result ≡ behind out.old at (label k ++ decimal n) }
{
    if k == 0 {
        return put_decimal(out, at, n as usize);
    }
    put_field(out, at, b",", n as usize)
}

// The numbers of a list, with commas between them.
fn put_list(out: &mut [u8], at: usize, list: &[u32]) -> usize
    ensures out_after { out.new ≡ put out.old at (joined 0 list.now) }
    ensures value { result ≡ behind out.old at (joined 0 list.now) }
{
    let mut end = at;
    for (k, n) in list.iter().enumerate() {
        end = put_number(out, end, k, *n);
    }
    end
}

// The line of record n and its list, as much of it as the buffer holds. Answers how many bytes that is.
pub fn shown_line(out: &mut [u8], text: &[u8], records: &[u32], n: usize, list: &[u32]) -> usize
    ensures out_after { out.new ≡ put out.old 0 (shown_line text.now records.now n list.now) }
    ensures value { result ≡ min (length (shown_line text.now records.now n list.now)) (length out.old) }
{
    let mut at = put_field(out, 0, b"no=", n);
    at = put_text(out, at, b" name=", table::name_of(text, records, n));
    at = put_bytes(out, at, b" shows=");
    at = put_list(out, at, list);
    put_bytes(out, at, b"\n")
}
