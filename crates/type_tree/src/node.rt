//! A data type, or a member of one, where it stands.

ghost use Rattle.std.specs.Prelude.{◌≡◌};
ghost use Rattle.std.specs.Iterator.{YieldsFirst, item_count};
ghost use Rattle.data_type.specs.Array.{left};
ghost use Rattle.type_tree.specs.Node.{root, member_at, members_of, members_left};

use crate::marks::Marks;
use data_type::array::{AdsArrayInfo, ArrayInfos};
use data_type::{AdsDataTypeInfo, DataTypes};
use flags::type_flags::AdsTypeFlags;
use refusal::Mode;

/// A data type, or a member at any depth in it.
#[derive(Clone, Copy, Debug)]
pub struct Node<'a> {
    /// Where it starts in the upload.
    pub place: usize,
    /// The sum of the offsets down to it.
    pub offset_from_start: u64,
    /// Why its offsets are not those of its bytes.
    pub marks: Marks,
    /// What it tells.
    pub info: AdsDataTypeInfo<'a>,
}

impl<'a> Node<'a> {
    /// A data type at a place of an upload.
    pub fn root(place: usize, info: AdsDataTypeInfo<'a>) -> Node<'a>
        ensures { result ≡ root place info.entry }
    {
        Node {
            place,
            offset_from_start: 0,
            marks: Marks {
                own: info.field.flags,
                around: AdsTypeFlags(0),
            },
            info,
        }
    }

    // One of its sub-items, at a place among them.
    #[tactic(auto, unfolding(crate::specs::Node::member_at))]
    fn member(&self, start: usize, info: AdsDataTypeInfo<'a>) -> Node<'a>
        ensures { result ≡ member_at self.now start info.entry }
    {
        let items = self.info.sub_items;
        let before = self.info.field.length.saturating_sub(items.bytes.len());
        let within = self.place.saturating_add(before);
        let offset = u64::from(info.field.offset);
        Node {
            place: within.saturating_add(start),
            offset_from_start: self.offset_from_start.saturating_add(offset),
            marks: self.marks.within(info.field.flags),
            info,
        }
    }

    /// Its sub-items, in order.
    pub fn members(&self, mode: Mode) -> Members<'a>
        ensures { members_left result ≡ members_of mode self.now }
    {
        let items = self.info.sub_items;
        Members {
            parent: *self,
            walker: DataTypes::new(items.bytes, mode),
            left: items.count,
        }
    }
}

/// The sub-items of a data type. They stand one behind another, and other bytes of the entry may follow them.
#[derive(Drop)]
pub struct Members<'a> {
    parent: Node<'a>,
    walker: DataTypes<'a>,
    left: u16,
}

impl<'a> Iterator for Members<'a> {
    type Item = Node<'a>;

    ghost next_gives = { YieldsFirst members_left };

    ghost remaining = { item_count members_left };

    #[tactic(auto, using(crate::proofs::Stepping::none_asked, crate::proofs::Stepping::none_left, crate::proofs::Stepping::one_left, crate::proofs::Stepping::one_refused))]
    fn next(&mut self) -> Option<Node<'a>> {
        if self.left == 0 {
            return None;
        }
        let Some(piece) = self.walker.next() else {
            self.left = 0;
            return None;
        };
        match piece.answer {
            Ok(info) => {
                self.left -= 1;
                Some(self.parent.member(piece.start, info))
            }
            Err(_) => {
                self.left = 0;
                None
            }
        }
    }
}

/// Array records, given one by one.
#[derive(Clone, Copy)]
pub struct Dimensions<'a>(pub ArrayInfos<'a>);

impl Iterator for Dimensions<'_> {
    type Item = AdsArrayInfo;

    ghost next_gives = { YieldsFirst (λ d. left d.0) };

    ghost remaining = { item_count (λ d. left d.0) };

    fn next(&mut self) -> Option<AdsArrayInfo> {
        self.0.next()
    }
}
