// The tidy text of records, put into a lent output.
#![tactic(auto)]

ghost use Rattle.std.specs.Prelude.{cond, false, [], ◌∷◌, ◌++◌, ◌≡◌, eqb};
ghost use Rattle.lines.specs.Puts.{Puts};
ghost use Rattle.scene.specs.Record.{name_in};
ghost use Rattle.tidying.specs.Tidy.{spaced};
ghost use Rattle.record_text.specs.RecordText.{modifier_word, primitive_text, record_text, record_texts};

use lines::Cursor;

// The word for a link to record n: its name, and for 0 the word `none`.
fn link_word<'a>(none: &'a [u8], text: &'a [u8], records: &[u32], n: usize) -> &'a [u8]
    ensures { result.now ≡ cond (eqb n 0) none.now (name_in text.now records.now n) }
{
    if n == 0 {
        return none;
    }
    table::name_of(text, records, n)
}

// The modifier of record n, a word for its type, and its name.
pub fn put_head(
    out: &mut [u8],
    c: Cursor,
    text: &[u8],
    records: &[u32],
    n: usize,
    kind: &[u8],
) -> Cursor
    ensures { Puts out.old c (modifier_word text.now records.now n ++ spaced (kind.now ∷ name_in text.now records.now n ∷ [])) result out.new }
{
    let link = table::field(records, n, table::MODIFIER) as usize;
    let behind_link = lines::put(out, c, link_word(b"void", text, records, link));
    let behind_kind = lines::put_spaced(out, behind_link, kind);
    lines::put_spaced(out, behind_kind, table::name_of(text, records, n))
}

// Record n as a primitive.
fn put_primitive(out: &mut [u8], c: Cursor, text: &[u8], records: &[u32], n: usize) -> Cursor
    ensures { Puts out.old c (primitive_text text.now records.now n) result out.new }
{
    let kind = type_names::type_name(table::field(records, n, table::KIND));
    let name = table::field(records, n, table::NAME) as usize;
    let strings = table::field(records, n, table::STRINGS);
    let reals = table::field(records, n, table::REALS);
    let behind_head = put_head(out, c, text, records, n, kind);
    let behind_line = lines::put(out, behind_head, b"\n");
    lines::put_arguments(out, behind_line, text, name, strings, reals)
}

// Record n, a primitive or an alias.
pub fn put_record(out: &mut [u8], c: Cursor, text: &[u8], records: &[u32], n: usize) -> Cursor
    ensures { Puts out.old c (record_text text.now records.now n) result out.new }
{
    let target = table::field(records, n, table::TARGET) as usize;
    if target == 0 {
        return put_primitive(out, c, text, records, n);
    }
    let behind_head = put_head(out, c, text, records, n, b"alias");
    let behind_target = lines::put_spaced(out, behind_head, table::name_of(text, records, target));
    lines::put(out, behind_target, b"\n")
}

// The first records of a table, from the output's front on.
pub fn put_records(out: &mut [u8], text: &[u8], records: &[u32], count: usize) -> Cursor
    ensures { Puts out.old (record { at = 0; full = false }) (record_texts text.now records.now count) result out.new }
{
    let mut end = Cursor { at: 0, full: false };
    for n in 0..count {
        end = put_record(out, end, text, records, n + 1);
    }
    end
}
