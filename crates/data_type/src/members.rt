//! The members of a data type: its sub-items and all that they hold, parents before children.
#![tactic(auto)]

ghost use Rattle.std.specs.Prelude.{◌≡◌, ◌≤◌, ◌-◌, ◌++◌, take};
ghost use Rattle.data_type.specs.Members.{root, place_of, item_in};

use crate::level::Level;
use crate::reader::{read_arrays, taken};
use crate::{AdsDataTypeInfo, SubItems};
use field::front::Front;
use refusal::{Mode, Refusal};

/// Where a member stands in a data type.
#[derive(Clone, Copy, Debug)]
pub struct Position {
    /// The places of the entries from depth 2 down to the member, counted from the start of the data type's entry; behind them zeros.
    pub path: [usize; 15],
    /// The data type's own depth is 1; so the path has one place less.
    pub depth: usize,
    /// The sum of the offsets along the path, as the headers tell them. It is where the member stands in a value of the data type, in
    /// bytes, unless the flags of a member along the path say otherwise (docs/FORMAT.md, "Data type entries"): offsets may be in bits,
    /// a static member stands elsewhere, as does what a reference refers to, and a property stands nowhere. What is below an array is
    /// told in its first element.
    pub offset: u64,
}

impl Position {
    /// The last place of the path: that of the member itself.
    #[inline(always)]
    pub fn place(&self) -> usize
        ensures { result ≡ place_of self.now }
    {
        let last = self.depth.saturating_sub(2);
        if last < 15 { self.path[last] } else { 0 }
    }
}

/// A member of a data type.
#[derive(Clone, Copy, Debug)]
pub struct Member<'a> {
    /// Where it stands.
    pub position: Position,
    /// The own bytes of its entry.
    pub own: &'a [u8],
}

/// A sub-item, by its front and its array records alone.
#[derive(Clone, Copy, Debug)]
pub struct SubItem<'a> {
    /// The own bytes of its entry.
    pub own: &'a [u8],
    /// The offset that its header tells.
    pub offset: u32,
    /// Its own sub-items, which stand behind its array records.
    pub sub_items: SubItems<'a>,
    /// What stands behind it.
    pub behind: &'a [u8],
}

/// The sub-item at the start of some bytes of its parent.
#[tactic(auto, using(crate::proofs::Entry::fits), unfolding(crate::specs::Members::item_in))]
#[inline(always)]
pub(crate) fn item_in(bytes: &[u8]) -> Result<SubItem<'_>, Refusal>
    ensures { result ≡ item_in bytes.entry }
{
    let (own, behind) = taken(bytes)?;
    let front = Front::read(own, Mode::Present)?;
    let (_, first) = read_arrays(&front)?;
    Ok(SubItem {
        own,
        offset: front.offset,
        sub_items: SubItems {
            bytes: first,
            count: front.sub_item_count,
        },
        behind,
    })
}

/// The members of a data type, read one by one as they are asked for, parents before children. Its fields are its own, so that
/// what it has still to give is all that a caller can see of it: of two that have the same left, each answer is the same.
#[derive(Clone, Copy, Debug)]
pub struct Members<'a> {
    // What the sub-items of the data type fill.
    bytes: &'a [u8],
    // What is left of these, of those of the one that was given last, and so on down.
    levels: [Level; 15],
    used: usize,
}

impl<'a> Members<'a> {
    ghost use Rattle.data_type.specs.Level.{level_left};
    ghost use Rattle.data_type.specs.Left.{standing, stack_left, members_left};

    // Where the sub-item stands that was given last by the innermost of so many levels; with none, where the data type itself does.
    #[inline(always)]
    fn standing(&self, levels: usize) -> Position
        requires { levels ≤ 15 }
        ensures { result ≡ standing root (take levels self.now.levels) }
    {
        let mut path = [0; 15];
        let mut offset = 0;
        for level in 0..levels {
            path[level] = self.levels[level].place;
            offset += self.levels[level].offset as u64;
        }
        Position {
            path,
            depth: levels + 1,
            offset,
        }
    }

    // Lays a level on the first so many. There is nothing below the deepest.
    #[tactic(auto, using(crate::proofs::Stack::pushed, crate::proofs::Stack::not_pushed, crate::proofs::Stack::empty_not_pushed))]
    #[inline(always)]
    fn push(&mut self, used: usize, held: Level)
        requires { used ≤ 15 }
        ensures { members_left self.new ≡ level_left (15 - used) (standing root (take used self.old.levels)) self.old.bytes held ++ stack_left 15 root self.old.bytes (take used self.old.levels) }
    {
        if used < 15 && !held.is_empty() {
            self.levels[used] = held;
            self.used = used + 1;
        } else {
            self.used = used;
        }
    }
}

impl<'a> Iterator for Members<'a> {
    ghost use Rattle.std.specs.Iterator.{YieldsFirst, item_count};
    ghost use Rattle.data_type.specs.Left.{members_left};

    type Item = Member<'a>;

    ghost next_gives = { YieldsFirst members_left };

    ghost remaining = { item_count members_left };

    #[inline(always)]
    fn next(&mut self) -> Option<Member<'a>> {
        let mut used = self.used.min(15);
        while used > 0 {
            let top = used - 1;
            let bytes = self.bytes;
            if let Some((own, held)) = self.levels[top].step(bytes) {
                let position = self.standing(used);
                self.push(used, held);
                return Some(Member { position, own });
            }
            used = top;
        }
        self.used = 0;
        None
    }
}

impl<'a> AdsDataTypeInfo<'a> {
    ghost use Rattle.data_type.specs.Members.{members_of, numbered};
    ghost use Rattle.data_type.specs.Left.{members_left};

    /// The members, parents before children.
    pub fn members(&self) -> Members<'a>
        ensures { members_left result ≡ members_of self.now }
    {
        let items = self.sub_items;
        let first = Level::first(items.bytes, self.field.length, items.count);
        Members {
            bytes: items.bytes,
            levels: [first; 15],
            used: 1,
        }
    }

    /// The member with a number, counted from 0; 14 where there is none.
    pub fn member(&self, number: usize) -> Result<Member<'a>, Refusal>
        ensures { result ≡ numbered self.now number }
    {
        self.members().nth(number).ok_or(Refusal::NoSuchNumber {
            count: self.member_count,
            asked: number,
        })
    }
}
