// Two texts read afresh into tables of their own.
#![tactic(auto)]

ghost use Rattle.pair.specs.Both.{ReadsBoth, both_of};

use reader::{Counts, read_with_own_tables};
use scene::{Mode, Refusal};

// Which scene.
#[derive(Clone, Copy, PartialEq, Eq, Debug)]
pub enum Side {
    Left = 0,
    Right = 1,
}

// The counts of both scenes.
#[derive(Clone, Copy, PartialEq, Eq, Debug)]
pub struct BothCounts {
    pub left: Counts,
    pub right: Counts,
}

// The scene that is refused, and the reader's refusal of it.
#[derive(Clone, Copy, PartialEq, Eq, Debug)]
pub struct SideRefusal {
    pub side: Side,
    pub refusal: Refusal,
}

// Reads both texts afresh in one mode, the left one first. A refusal leaves all four tables zero.
pub fn read_both(
    mode: Mode,
    left: &[u8],
    left_records: &mut [u32],
    left_reals: &mut [f64],
    right: &[u8],
    right_records: &mut [u32],
    right_reals: &mut [f64],
) -> Result<BothCounts, SideRefusal>
    ensures { ReadsBoth mode left.now left_records.old left_reals.old right.now right_records.old right_reals.old (both_of result) left_records.new left_reals.new right_records.new right_reals.new }
{
    match read_with_own_tables(mode, left, left_records, left_reals) {
        Err(refusal) => {
            table::clear(right_records, right_reals);
            Err(SideRefusal {
                side: Side::Left,
                refusal,
            })
        }
        Ok(left_counts) => match read_with_own_tables(mode, right, right_records, right_reals) {
            Err(refusal) => {
                table::clear(left_records, left_reals);
                Err(SideRefusal {
                    side: Side::Right,
                    refusal,
                })
            }
            Ok(right_counts) => Ok(BothCounts {
                left: left_counts,
                right: right_counts,
            }),
        },
    }
}
