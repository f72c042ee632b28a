// Readings as host programs are handed them: a number for the kind of answer, and its values in a small array.
#![tactic(auto)]

ghost use Rattle.std.specs.Prelude.{◌≡◌};
ghost use Rattle.host_reading.specs.Host.{HostReads, HostReadsIndexed, mode_of};

use scene::Mode;

// The mode of a number: 1 is the archive reading, and any other number the new one.
pub fn mode_of(number: u32) -> Mode
    ensures { result ≡ mode_of number }
{
    if number == 1 {
        return Mode::Archive;
    }
    Mode::New
}

// Reads a scene: the reason or 0, and place, primitives, reals. Numbers, as the calls for C and Rust hand them on (`HostReads`).
pub fn tell_reading(
    mode: u32,
    text: &[u8],
    records: &mut [u32],
    reals: &mut [f64],
    pairs: &mut [u32],
    answer: &mut [usize; 3],
) -> u32
    ensures { HostReads mode text.now records.old reals.old pairs.old result answer.new records.new reals.new pairs.new }
{
    match reader::read(mode_of(mode), text, records, reals, pairs) {
        Ok(counts) => {
            *answer = [0, counts.primitives, counts.reals];
            0
        }
        Err(refusal) => {
            *answer = [refusal.place, 0, 0];
            refusal.reason.number()
        }
    }
}

// Reads a scene by a lent index: the reason or 0, and place, primitives, reals, and entries looked at. Numbers, as `HostReadsIndexed`
// has them.
pub fn tell_indexed(
    mode: u32,
    text: &[u8],
    records: &mut [u32],
    reals: &mut [f64],
    pairs: &mut [u32],
    index: &mut [u32],
    answer: &mut [usize; 4],
) -> u32
    ensures { HostReadsIndexed mode text.now records.old reals.old pairs.old index.old result answer.new records.new reals.new pairs.new index.new }
{
    let r = reader::read_indexed(mode_of(mode), text, records, reals, pairs, index);
    match r.answer {
        Ok(counts) => {
            *answer = [0, counts.primitives, counts.reals, r.looked as usize];
            0
        }
        Err(refusal) => {
            *answer = [refusal.place, 0, 0, r.looked as usize];
            refusal.reason.number()
        }
    }
}
