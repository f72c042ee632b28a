// Which definition of its name each record of a scene is, by the order of the records.
#![tactic(auto)]

ghost use Rattle.std.specs.Prelude.{◌≡◌, ◌<◌, length, replicate};
ghost use Rattle.ranks.specs.Rank.{order_table, rank_behind, ranks_of, with_entry};

use table::MOST_RECORDS;

// The rank of record n behind a record that is the kth of its name.
fn rank(text: &[u8], records: &[u32], last: u32, k: u32, n: u32) -> u32
    requires { k < 1024 }
    ensures { result ≡ rank_behind text.now records.now last k n }
{
    let name = table::name_of(text, records, last as usize);
    if lexer::same(name, table::name_of(text, records, n as usize)) {
        return k + 1;
    }
    1
}

// Puts the entry of record n, where the table has one.
fn put(table: &mut [u32], n: u32, value: u32)
    ensures { table.new ≡ with_entry table.old n value }
{
    let number = n as usize;
    if number == 0 {
        return;
    }
    if table.len() < number {
        return;
    }
    table[number - 1] = value;
}

// Which definition of its name each record is, from 1, counted along their order, where records of one name stand side by side;
// 0 for records that do not stand in it.
pub fn ranks(text: &[u8], records: &[u32], order: &[u32], nths: &mut [u32])
    ensures { nths.new ≡ ranks_of text.now records.now order.now (length nths.old) }
{
    nths.fill(0);
    let mut last = 0;
    let mut nth = 0;
    for &n in &order[..MOST_RECORDS.min(order.len())] {
        nth = rank(text, records, last, nth, n);
        put(nths, n, nth);
        last = n;
    }
}

// The numbers of the records in the order of their names in a table's first half, and their ranks in the rest.
pub fn order_names(text: &[u8], records: &[u32], table: &mut [u32], scratch: &mut [u32])
    ensures table_after { table.new ≡ order_table text.now records.now (length table.old) (length scratch.old) }
    ensures scratch_after { scratch.new ≡ replicate (length scratch.old) 0 }
{
    let half = table.len() / 2;
    let (order, nths) = table.split_at_mut(half);
    name_order::order(text, records, order, scratch);
    ranks(text, records, order, nths);
}
