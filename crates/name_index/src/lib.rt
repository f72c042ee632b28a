// The names of a scene, surfaces counted, found by an index of their own. Over a text and a table of records that may hold anything;
// of the table the first 1,024 whole records are looked at.
#![tactic(auto)]

ghost use Rattle.std.specs.Prelude.{◌≡◌, ◌≤◌, set};
ghost use Rattle.index.specs.Index.{index_by};
ghost use Rattle.index.specs.Searches.{sought};
ghost use Rattle.scene.specs.Record.{name_in};
ghost use Rattle.name_index.specs.Names.{count_in, names_once_in, rows};

use index::ENTRIES;
use table::{MOST_RECORDS, WIDTH};

// How many records are looked at.
fn count(records: &[u32]) -> usize
    ensures { result ≡ count_in records.now }
{
    MOST_RECORDS.min(records.len() / WIDTH)
}

// Enters record n.
fn enter(text: &[u8], records: &[u32], index: &mut [u32], n: usize)
    requires { n ≤ 1024 }
    ensures { index.new ≡ set index.old (sought text.now records.now index.old n (name_in text.now records.now n)).entry n }
{
    let found = index::search(text, records, index, n, table::name_of(text, records, n));
    index::put(index, found.entry, n as u32);
}

// The index of all names.
pub fn index_names(text: &[u8], records: &[u32]) -> [u32; ENTRIES]
    ensures { result ≡ index_by (rows text.now records.now) (count_in records.now) }
{
    let mut index = [0u32; ENTRIES];
    for n in 0..count(records) {
        enter(text, records, &mut index, n + 1);
    }
    index
}

// Whether each name stands once: every record is the latest of its name.
pub fn names_once(text: &[u8], records: &[u32]) -> bool
    ensures { result ≡ names_once_in text.now records.now }
{
    let index = index_names(text, records);
    for row in 0..count(records) {
        let n = row + 1;
        let found = index::search(text, records, &index, n, table::name_of(text, records, n));
        if found.number != n {
            return false;
        }
    }
    true
}
