// The driver of the scene reader: plain statements whole, and through all else of a text step by step, each step done to the lent
// tables.
#![tactic(auto)]

ghost use Rattle.driver.specs.Ending.{Ends, end_of};

use scene::{Mode, Reason, Refusal};
use statement::Step;

// What an accepted text counts: its primitives and their reals, and the entries of the index looked at for it.
#[derive(Clone, Copy, PartialEq, Eq, Debug)]
pub struct Accepted {
    pub primitives: usize,
    pub reals: usize,
    pub looked: u32,
}

// Reads a scene text into the lent tables, which it clears first, and again after a refusal. An index of under 2,048 entries is
// cleared too, and not used.
pub fn run(
    mode: Mode,
    text: &[u8],
    records: &mut [u32],
    reals: &mut [f64],
    index: &mut [u32],
) -> Result<Accepted, Refusal>
    ensures { Ends mode text.now records.old reals.old index.old (end_of result) records.new reals.new index.new }
{
    table::clear_all(records, reals, index);
    if table::MOST_BYTES < text.len() {
        return Err(Refusal {
            reason: Reason::TextTooLong,
            place: 0,
        });
    }
    let settings = table::settings_for(mode, records.len(), reals.len());
    let mut s = statement::between(0, 0, 0, 0);
    loop {
        s = plain::statements(text, records, reals, index, settings, s);
        match parser::next_step(text, records, reals, index, settings, s) {
            Step::Going(t) => {
                s = t;
            }
            Step::Real(t, x) => {
                reals[s.used] = x;
                s = t;
            }
            Step::Last(t, x) => {
                reals[s.used] = x;
                s = linker::enter(text, records, index, t);
            }
            Step::Complete(t) => {
                s = linker::enter(text, records, index, t);
            }
            Step::Refused(refusal) => {
                table::clear_all(records, reals, index);
                return Err(refusal);
            }
            Step::Ended => {
                return Ok(Accepted {
                    primitives: s.count,
                    reals: s.used,
                    looked: s.looked,
                });
            }
        }
    }
}
