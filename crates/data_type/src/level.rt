//! What is left to give of the members of one entry.
#![tactic(auto)]

ghost use Rattle.std.specs.Prelude.{ℕ, ◌≡◌, eqb};

use crate::members::item_in;

/// Sub-items of an entry, within the bytes that the sub-items of the data type fill.
#[derive(Clone, Copy, Debug)]
pub struct Level {
    /// Where the one stands that was given last, and its offset.
    pub(crate) place: usize,
    pub(crate) offset: u32,
    /// The next one's place in those bytes, and where the bytes of the entry end there.
    at: usize,
    stop: usize,
    /// The same end, counted from the start of the data type's entry.
    end: usize,
    /// How many are left.
    count: u16,
}

impl Level {
    ghost use Rattle.data_type.specs.declared.members.Position.{Position};
    ghost use Rattle.data_type.specs.Members.{members_below};
    ghost use Rattle.data_type.specs.Level.{level_left, Gives};

    /// The sub-items of the data type itself, which fill so many bytes.
    #[tactic(auto, using(crate::proofs::Parts::cut_all))]
    #[inline(always)]
    pub(crate) fn first(bytes: &[u8], end: usize, count: u16) -> Level
        ensures { (levels : ℕ) (above : Position) → level_left levels above bytes.entry result ≡ members_below levels above end bytes.entry count }
    {
        Level {
            place: 0,
            offset: 0,
            at: 0,
            stop: bytes.len(),
            end,
            count,
        }
    }

    /// Whether no sub-item is left.
    #[inline(always)]
    pub(crate) fn is_empty(&self) -> bool
        ensures { result ≡ eqb self.now.count 0 }
    {
        self.count == 0
    }

    /// The own bytes of the next sub-item, and what it holds in turn.
    #[tactic(auto, using(crate::proofs::Steps::lies, crate::proofs::Steps::none_left, crate::proofs::Steps::refused_left))]
    #[inline(always)]
    pub(crate) fn step<'a>(&mut self, bytes: &'a [u8]) -> Option<(&'a [u8], Level)>
        ensures { Gives bytes.entry self.old self.new result }
    {
        if self.count == 0 {
            return None;
        }
        let stop = self.stop.min(bytes.len());
        let at = self.at.min(stop);
        let rest = part::part_of(bytes, at, stop - at);
        let Ok(item) = item_in(rest) else { return None };
        let place = self.end.saturating_sub(rest.len());
        let behind = at + item.own.len();
        self.place = place;
        self.offset = item.offset;
        self.at = behind;
        self.stop = stop;
        self.count -= 1;
        let held = Level {
            place: 0,
            offset: 0,
            at: behind - item.sub_items.bytes.len(),
            stop: behind,
            end: place + item.own.len(),
            count: item.sub_items.count,
        };
        Some((item.own, held))
    }
}
