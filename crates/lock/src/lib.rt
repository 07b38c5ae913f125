// Block lock: which pages a control byte locks.
#![tactic(auto)]

ghost use Rattle.std.specs.Prelude.{◌≡◌};
ghost use Rattle.lock.specs.Lock.{block_code, upper_from, extent_of, locked_of};

use ground::kinds::Kind;
use part::state::{PAGE, Place};

// Where block codes 1 and 2 begin to lock, on a part on which they do.
const FROM_CODE_ONE: u16 = 0x3000;

const FROM_CODE_TWO: u16 = 0x2000;

// Pages from `from` up to but not including `to`: no Range, since the definitions and the reasons of `withheld` name its two ends.
#[derive(Clone, Copy)]
pub struct Extent {
    pub from: u16,
    pub to: u16,
}

// BP2 BP1 BP0 of a control byte.
pub fn block_code(stored: u8) -> u8
    ensures { result ≡ block_code stored }
{
    stored % 2 * 4 + stored / 8 % 4
}

// The pages from a place to the array's end, on a part whose upper blocks are locked at all.
fn upper_from(kind: Kind, first: u16) -> Extent
    ensures { result ≡ upper_from kind first }
{
    if kind.upper {
        return Extent {
            from: first / PAGE,
            to: kind.size / PAGE,
        };
    }
    Extent { from: 0, to: 0 }
}

// The pages that a block code locks.
#[tactic(auto, unfolding(crate::specs::Lock::extent_of))]
pub fn extent_of(kind: Kind, code: u8) -> Extent
    ensures { result ≡ extent_of kind code }
{
    match code {
        0 => Extent { from: 0, to: 0 },
        1 => upper_from(kind, FROM_CODE_ONE),
        2 => upper_from(kind, FROM_CODE_TWO),
        3 => Extent {
            from: 0,
            to: kind.size / PAGE,
        },
        4 => Extent { from: 0, to: 1 },
        5 => Extent { from: 0, to: 2 },
        6 => Extent { from: 0, to: 4 },
        7 => Extent { from: 0, to: 8 },
        8..=255 => Extent { from: 0, to: 0 },
    }
}

// Whether a place lies in a locked page.
#[tactic(auto, unfolding(crate::specs::Lock::locked_of))]
pub fn locked(kind: Kind, stored: u8, place: Place) -> bool
    ensures { result ≡ locked_of kind stored place }
{
    let extent = extent_of(kind, block_code(stored));
    (extent.from..extent.to).contains(&(place.0 / PAGE))
}
