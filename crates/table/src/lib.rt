// The record's layout, and what every user of a table of records does with one. A table may hold anything.
#![tactic(auto)]

ghost use Rattle.std.specs.Prelude.{◌≡◌, ◌*◌, ◌/◌, min, get_or, length, replicate, take};
ghost use Rattle.scene.specs.HouseRules.{zero_real};
ghost use Rattle.scene.specs.Record.{field_in, name_in, record_in, settings_for, width};
ghost use Rattle.scene.specs.Told.{reals_of};
ghost use Rattle.table.specs.Number.{number_in};
ghost use Rattle.table.specs.Question.{number_refusal, refusal_number};

use scene::{Mode, Reason, Settings};

// How many numbers a record has.
pub const WIDTH: usize = 11;

// A record's numbers, in their order: type, modifier link, alias target, name's place and length, first string's place and string
// count, first real's index and real count, the next of the same name, the line of the name.
pub const KIND: usize = 0;

pub const MODIFIER: usize = 1;

pub const TARGET: usize = 2;

pub const NAME: usize = 3;

pub const NAME_LENGTH: usize = 4;

pub const STRING: usize = 5;

pub const STRINGS: usize = 6;

pub const REAL: usize = 7;

pub const REALS: usize = 8;

pub const NEXT: usize = 9;

pub const LINE: usize = 10;

// The longest text that is read; the most records and reals that a reading stores, and how many numbers that many records have.
pub const MOST_BYTES: usize = 65536;

pub const MOST_RECORDS: usize = 1024;

pub const MOST_REALS: usize = 4096;

pub const MOST_NUMBERS: usize = MOST_RECORDS * WIDTH;

// The settings of a reading into tables of these lengths.
pub fn settings_for(mode: Mode, numbers: usize, reals: usize) -> Settings
    ensures { result ≡ settings_for mode numbers reals }
{
    Settings {
        mode,
        records: MOST_RECORDS.min(numbers / WIDTH),
        reals: MOST_REALS.min(reals),
    }
}

// Number k, from 0, of record n, from 1; 0 where there is none.
#[tactic(auto, unfolding(scene::specs::Record::field_in))]
pub fn field(records: &[u32], n: usize, k: usize) -> u32
    ensures { result ≡ field_in records.now n k }
{
    if (n == 0) | (WIDTH <= k) {
        return 0;
    }
    let row = n - 1;
    // Eight for eleven: a shift in place of a division, and still no table has a row past that.
    if records.len() / 8 < row {
        return 0;
    }
    records.get(row * WIDTH + k).copied().unwrap_or(0)
}

// Number n of a list, from 1; 0 where there is none.
#[tactic(auto, unfolding(crate::specs::Number::number_in))]
pub fn number_at(numbers: &[usize], n: usize) -> usize
    ensures { result ≡ number_in numbers.now n }
{
    if n == 0 {
        return 0;
    }
    numbers.get(n - 1).copied().unwrap_or(0)
}

// Real number i, from 0; 0 where the table has none.
pub fn real_at(reals: &[f64], i: usize) -> f64
    ensures { result ≡ get_or reals.now i zero_real }
{
    reals.get(i).copied().unwrap_or(0.0)
}

// The reals of record n: those of them that the table has.
pub fn reals_of<'a>(records: &[u32], reals: &'a [f64], n: usize) -> &'a [f64]
    ensures { result.now ≡ reals_of reals.now (record_in records.now n) }
{
    let first = field(records, n, REAL) as usize;
    let many = field(records, n, REALS) as usize;
    let start = first.min(reals.len());
    let end = start + many.min(reals.len() - start);
    &reals[start..end]
}

// The name of record n: what the text has of the part that the record names.
pub fn name_of<'a>(text: &'a [u8], records: &[u32], n: usize) -> &'a [u8]
    ensures { result.now ≡ name_in text.now records.now n }
{
    lexer::part(
        text,
        field(records, n, NAME) as usize,
        field(records, n, NAME_LENGTH) as usize,
    )
}

// The first so many records: all of them where the table has fewer.
pub fn first_records<'a>(records: &'a [u32], count: usize) -> &'a [u32]
    ensures { result.now ≡ take (min count (length records.now / width) * width) records.now }
{
    let end = count.min(records.len() / WIDTH) * WIDTH;
    &records[..end]
}

// Whether a primitive can be asked about: the count is tested first, then the number.
#[tactic(auto, unfolding(crate::specs::Question::number_refusal))]
pub fn number_refusal(records: &[u32], count: usize, number: usize) -> Result<(), Reason>
    ensures { refusal_number result ≡ number_refusal records.now count number }
{
    if MOST_RECORDS < count {
        return Err(Reason::BadTable);
    }
    if records.len() < count * WIDTH {
        return Err(Reason::BadTable);
    }
    if number == 0 {
        return Err(Reason::NoSuchPrimitive);
    }
    if count < number {
        return Err(Reason::NoSuchPrimitive);
    }
    Ok(())
}

// Zeroes a table of numbers.
pub fn clear_numbers(numbers: &mut [u32])
    ensures { numbers.new ≡ replicate (length numbers.old) 0 }
{
    numbers.fill(0);
}

// Zeroes both tables.
pub fn clear(records: &mut [u32], reals: &mut [f64])
    ensures records_after { records.new ≡ replicate (length records.old) 0 }
    ensures reals_after { reals.new ≡ replicate (length reals.old) zero_real }
{
    clear_numbers(records);
    reals.fill(0.0);
}

// Zeroes both tables and an index.
pub fn clear_all(records: &mut [u32], reals: &mut [f64], index: &mut [u32])
    ensures records_after { records.new ≡ replicate (length records.old) 0 }
    ensures reals_after { reals.new ≡ replicate (length reals.old) zero_real }
    ensures index_after { index.new ≡ replicate (length index.old) 0 }
{
    clear(records, reals);
    clear_numbers(index);
}
