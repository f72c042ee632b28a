// The record of a complete statement entered into the tables: its row, the next of the earlier one of its name, and the index.
#![tactic(auto)]

ghost use Rattle.std.specs.Prelude.{◌≡◌, ◌+◌, ◌*◌, ◌≤◌, length};
ghost use Rattle.std.proofs.lemmas.List.Edits.{sets};
ghost use Rattle.linker.specs.Entered.{behind_in, earlier_in, entered_at, entered_in, indexed_in, looked_in, row_of, told_in};
ghost use Rattle.scene.specs.Record.{width};

use index::Found;
use statement::{Draft, State, narrow};
use table::{NEXT, WIDTH};

// Stores a draft as row `n`, counted from 0, with no next of its name, and the line of its name. Number by number: a row that is
// put together first and copied then waits for its own parts.
fn put_row(records: &mut [u32], n: usize, d: Draft, line: u32)
    requires { n * width + width ≤ length records.old }
    ensures { records.new ≡ sets records.old (n * width) (row_of d line) }
{
    let at = n * WIDTH;
    records[at] = d.kind;
    records[at + 1] = d.modifier;
    records[at + 2] = d.target;
    records[at + 3] = d.name;
    records[at + 4] = d.size;
    records[at + 5] = d.string;
    records[at + 6] = d.strings;
    records[at + 7] = d.real;
    records[at + 8] = d.reals;
    records[at + 9] = 0;
    records[at + 10] = line;
}

// Tells the record of a number which is the next of its name; 0, or one past the table's last, is no record.
fn tell_next(records: &mut [u32], number: usize, next: u32)
    ensures { records.new ≡ told_in records.old number next }
{
    if number == 0 {
        return;
    }
    if records.len() / WIDTH < number {
        return;
    }
    records[(number - 1) * WIDTH + NEXT] = next;
}

// The search for the record that gets the draft as its next: the latest before it of its name. A surface is nobody's next, and is
// not searched for.
fn earlier(text: &[u8], records: &[u32], index: &[u32], count: usize, d: Draft) -> Found
    ensures { result ≡ earlier_in text.now records.now index.now count d }
{
    if kinds::is_surface(d.kind) {
        return Found {
            entry: index.len(),
            number: 0,
            looked: 0,
        };
    }
    let name = lexer::part(text, d.name as usize, d.size as usize);
    index::search(text, records, index, count, name)
}

// The draft becomes record `count`, counted from 0, with its line, where the table has room for it; a non-surface is entered into the
// index where the search for its name ended. The answer is how many entries were looked at.
pub fn enter_row(
    text: &[u8],
    records: &mut [u32],
    index: &mut [u32],
    count: usize,
    d: Draft,
    line: u32,
) -> u32
    ensures value { result ≡ looked_in text.now records.old index.old count d }
    ensures records_after { records.new ≡ entered_at text.now records.old index.old count d line }
    ensures index_after { index.new ≡ indexed_in text.now records.old index.old count d }
{
    if records.len() / WIDTH <= count {
        return 0;
    }
    let found = earlier(text, records, index, count, d);
    let number = narrow(count + 1);
    tell_next(records, found.number, number);
    put_row(records, count, d, line);
    index::put(index, found.entry, number);
    found.looked
}

// The finished statement is entered.
pub fn enter(text: &[u8], records: &mut [u32], index: &mut [u32], t: State) -> State
    ensures value { result ≡ behind_in text.now records.old index.old t }
    ensures records_after { records.new ≡ entered_in text.now records.old index.old t.count t.draft }
    ensures index_after { index.new ≡ indexed_in text.now records.old index.old t.count t.draft }
{
    let count = t.count;
    if records.len() / WIDTH <= count {
        return statement::between(t.at, count, t.used, t.looked);
    }
    let d = t.draft;
    let last = count + 1;
    let line = narrow(line_numbers::line_of(text, records, count, d.name as usize));
    let u = statement::counted(t, enter_row(text, records, index, count, d, line));
    statement::between(t.at, last, t.used, u.looked)
}
