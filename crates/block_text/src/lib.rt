// Blocks of a text, by the places behind them, put into a lent output in an order.
#![tactic(auto)]

ghost use Rattle.std.specs.Prelude.{false, ◌≡◌};
ghost use Rattle.block_text.specs.BlockText.{WritesBlocks, block_in, blocks_in};
ghost use Rattle.lines.specs.Puts.{Puts};
ghost use Rattle.writer.specs.Answer.{answer_of};

use lines::Cursor;
use scene::Refusal;

// Block n of a text.
fn block<'a>(text: &'a [u8], ends: &[usize], n: usize) -> &'a [u8]
    ensures { result.now ≡ block_in text.now ends.now n }
{
    let start = table::number_at(ends, n.saturating_sub(1));
    let end = table::number_at(ends, n);
    lexer::part(text, start, end.saturating_sub(start))
}

// The blocks in an order, from the output's front on.
fn put_blocks(out: &mut [u8], text: &[u8], ends: &[usize], order: &[usize]) -> Cursor
    ensures { Puts out.old (record { at = 0; full = false }) (blocks_in text.now ends.now order.now) result out.new }
{
    let mut end = Cursor { at: 0, full: false };
    for n in order {
        end = lines::put(out, end, block(text, ends, *n));
    }
    end
}

// The blocks in an order, and what stands behind the last of them in the text: the length of all.
pub fn write_blocks(
    text: &[u8],
    ends: &[usize],
    order: &[usize],
    out: &mut [u8],
) -> Result<usize, Refusal>
    ensures { WritesBlocks text.now ends.now order.now out.old (answer_of result) out.new }
{
    let behind_blocks = put_blocks(out, text, ends, order);
    let rest = table::number_at(ends, ends.len());
    let end = lines::put(out, behind_blocks, lexer::part(text, rest, text.len()));
    writer::clear_unused(out, writer::put_length(end))
}
