// Bytes and numbers put into a lent buffer: as many bytes as fit, and the place behind them as the answer.
#![tactic(auto)]

ghost use Rattle.std.specs.Prelude.{◌++◌, ◌≡◌, ◌^◌, ◌≤◌, ◌<◌, length, drop};
ghost use Rattle.buffer.specs.Decimal.{decimal, digits};
ghost use Rattle.buffer.specs.Put.{put, behind};

// From a place past the buffer's end nothing fits.
pub fn put_bytes(out: &mut [u8], at: usize, new: &[u8]) -> usize
    ensures out_after { out.new ≡ put out.old at new.now }
    ensures value { result ≡ behind out.old at new.now }
{
    let start = at.min(out.len());
    let fit = new.len().min(out.len() - start);
    // Byte by byte: `copy_from_slice` would have an archive for C ask for `memmove`.
    for i in 0..fit {
        out[start + i] = new[i];
    }
    at + fit
}

// Spells n in the last bytes of `text`, and answers where its digits start.
fn spell(text: &mut [u8], n: usize) -> usize
    requires { n < 10 ^ length text.old }
    ensures upper_bound { result ≤ length text.old }
    ensures text_after { drop result text.new ≡ digits (length text.old) n }
{
    let mut i = text.len();
    let mut rest = n;
    while 0 < rest {
        i -= 1;
        text[i] = b'0' + (rest % 10) as u8;
        rest /= 10;
    }
    i
}

pub fn put_decimal(out: &mut [u8], at: usize, n: usize) -> usize
    ensures out_after { out.new ≡ put out.old at (decimal n) }
    ensures value { result ≡ behind out.old at (decimal n) }
{
    if n == 0 {
        return put_bytes(out, at, b"0");
    }
    let mut text = [0u8; 20];
    let start = spell(&mut text, n);
    put_bytes(out, at, &text[start..])
}

// Puts what a number is, and then the number.
pub fn put_field(out: &mut [u8], at: usize, label: &[u8], n: usize) -> usize
    ensures out_after { out.new ≡ put out.old at (label.now ++ decimal n) }
    ensures value { result ≡ behind out.old at (label.now ++ decimal n) }
{
    let middle = put_bytes(out, at, label);
    put_decimal(out, middle, n)
}
