//! Entries that are not read: for a walk that asks only where pieces stand, or looks at their bytes itself.
#![tactic(auto, unfolding(crate::specs::Unread::unread_of))]

ghost use Rattle.std.specs.Prelude.{◌≡◌, length};
ghost use Rattle.walk.specs.Unread.{unread_of, four, long, room, short, never_zero};

use crate::Entry;
use refusal::{Mode, Refusal};

// The shortest header that a kind has, a symbol's.
const SHORTEST: usize = 30;

/// An entry of any kind with room for a header, before it is read.
#[derive(Clone, Copy, Debug)]
pub struct Unread<'a> {
    /// The entry's own bytes.
    pub bytes: &'a [u8],
}

impl<'a> Entry<'a> for Unread<'a> {
    ghost HEADER = { 30 };

    ghost read = { unread_of };

    ghost length_of = { λ r. length r.bytes.now };

    ghost four = { four };

    ghost long = { long };

    ghost room = { room };

    ghost short = { short };

    ghost never_zero = { never_zero };

    fn header() -> usize
        ensures { result ≡ 30 }
    {
        SHORTEST
    }

    #[inline(always)]
    fn read(own: &'a [u8], _mode: Mode) -> Result<Self, Refusal> {
        let present = own.len();
        if present < SHORTEST {
            return Err(Refusal::TooShort {
                needed: SHORTEST,
                present,
            });
        }
        Ok(Unread { bytes: own })
    }
}
