// The fields of a line, put into a lent buffer: what a value is, and then the value.
#![tactic(auto)]

ghost use Rattle.std.specs.Prelude.{◌++◌, ◌≡◌};
ghost use Rattle.buffer.specs.Decimal.{decimal};
ghost use Rattle.buffer.specs.Put.{put, behind};
ghost use Rattle.fields.specs.Fields.{kind_field};
ghost use Rattle.laws.specs.Bytes.{bytes};

use buffer::{put_bytes, put_field};

pub fn put_text(out: &mut [u8], at: usize, label: &[u8], text: &[u8]) -> usize
    ensures out_after { out.new ≡ put out.old at (label.now ++ text.now) }
    ensures value { result ≡ behind out.old at (label.now ++ text.now) }
{
    let middle = put_bytes(out, at, label);
    put_bytes(out, middle, text)
}

// Puts the name of a type.
pub fn put_kind(out: &mut [u8], at: usize, kind: u32) -> usize
    ensures out_after { out.new ≡ put out.old at (kind_field kind) }
    ensures value { result ≡ behind out.old at (kind_field kind) }
{
    put_text(out, at, b" type=", type_names::type_name(kind))
}

// Puts a line's last number, and the line's end.
pub fn put_last(out: &mut [u8], at: usize, label: &[u8], n: usize) -> usize
    ensures out_after { out.new ≡ put out.old at (label.now ++ decimal n ++ bytes "\n") }
    ensures value { result ≡ behind out.old at (label.now ++ decimal n ++ bytes "\n") }
{
    let middle = put_field(out, at, label, n);
    put_bytes(out, middle, b"\n")
}
