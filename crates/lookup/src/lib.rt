// The look-up of a name in a table of records that may hold anything: a search from the latest record back, past surfaces.
#![tactic(auto)]

ghost use Rattle.std.specs.Prelude.{[], ◌≡◌, ◌/◌, min, length};
ghost use Rattle.lookup.specs.Lookup.{latest_in};
ghost use Rattle.scene.specs.Record.{width};

use table::{KIND, NAME, NAME_LENGTH, WIDTH};

// The number of the latest of the first `count` records, no surface, whose name has no bytes; 0 for none.
fn find_empty(text: &[u8], records: &[u32], count: usize) -> usize
    ensures { result ≡ latest_in text.now records.now [] count }
{
    for n in (1..=count).rev() {
        let size = table::field(records, n, NAME_LENGTH);
        let name = table::field(records, n, NAME) as usize;
        let surface = kinds::is_surface(table::field(records, n, KIND));
        if (size == 0) & (name <= text.len()) & !surface {
            return n;
        }
    }
    0
}

// The number of the latest of the first `count` records, no surface, that has the name `word`; 0 for none. Bytes are compared from
// the last one on, where names of a kind differ first.
pub fn find(text: &[u8], records: &[u32], count: usize, word: &[u8]) -> usize
    ensures { result ≡ latest_in text.now records.now word.now (min count (length records.now / width)) }
{
    let len = word.len();
    let n = count.min(records.len() / WIDTH);
    if len == 0 {
        return find_empty(text, records, n);
    }
    if text.len() < len {
        return 0;
    }
    let most = text.len() - len;
    let end = len - 1;
    let last = word[end];
    'search: for row in (0..n).rev() {
        let size = records[row * WIDTH + NAME_LENGTH] as usize;
        if size != len {
            continue;
        }
        let name = records[row * WIDTH + NAME] as usize;
        if most < name {
            continue;
        }
        if text[name + end] != last {
            continue;
        }
        for i in (0..end).rev() {
            if text[name + i] != word[i] {
                continue 'search;
            }
        }
        if kinds::is_surface(records[row * WIDTH + KIND]) {
            continue;
        }
        return row + 1;
    }
    0
}
