//! What is told of a data type, of its array records and of its members.
ghost use Rattle.std.specs.Prelude.{◌≡◌};
ghost use Rattle.told.specs.Told.{Tells, record_told};
ghost use Rattle.told.specs.Slots.{slots_after};
ghost use Rattle.told.specs.Asked.{type_array, type_member};
ghost use Rattle.told.specs.TypeSlots.{type_slots, array_slots, member_slots, member_guid, position_slots, path_slots};
ghost use Rattle.told.specs.Shown.{IsTypeShown, types_shown};

use crate::records::{Told, tell_record};
use crate::{DONE, refused, tell};
use data_type::AdsDataTypeInfo;
use data_type::array::AdsArrayInfo;
use data_type::members::Position;
use refusal::{Mode, Refusal};
use walk::Entry;

/// A member of a data type, with what its own bytes are read as.
#[derive(Clone, Copy, Debug)]
pub struct ReadMember<'a> {
    /// Where it stands in the data type.
    pub position: Position,
    /// What it is.
    pub data_type: AdsDataTypeInfo<'a>,
}

impl<'a> Told<'a> for AdsDataTypeInfo<'a> {
    type Slots = [u64; 21];

    ghost shown = { IsTypeShown };

    ghost slots = { type_slots };

    ghost guid = { λ r. r.field.guid };

    #[inline(always)]
    #[tactic(auto, unfolding(crate::specs::TypeSlots::type_slots, crate::specs::Slots::field_slots))]
    fn slots(&self) -> [u64; 21] {
        let field = &self.field;
        let mut slots = [0; 21];
        slots[..17].copy_from_slice(&field.slots());
        slots[17..].copy_from_slice(&[
            (45 + field.name.len() + field.type_name.len() + field.comment.len()) as u64,
            self.arrays.count as u64,
            self.sub_items.count as u64,
            self.member_count as u64,
        ]);
        slots
    }

    #[inline(always)]
    fn guid(&self) -> Option<[u8; 16]> {
        self.field.guid
    }

    ghost accepted = { types_shown };
}

fn find_array(bytes: &[u8], mode: Mode, number: usize) -> Result<AdsArrayInfo, Refusal>
    ensures { result ≡ type_array mode bytes.entry number }
{
    let found = walk::parse::<AdsDataTypeInfo>(bytes, mode)?;
    found.arrays.get(number)
}

/// The array record with a number, counted from 0, of the data type at the start of some bytes.
pub fn array(
    bytes: &[u8],
    mode: Mode,
    number: usize,
    slots: &mut [u64; 2],
    answer: &mut [u64; 2],
) -> u32
    ensures tells { Tells (record_told (type_array mode bytes.entry number)) result answer.new }
    ensures slots_after { slots.new ≡ slots_after array_slots (type_array mode bytes.entry number) slots.old }
{
    match find_array(bytes, mode, number) {
        Ok(found) => {
            *slots = [found.lower_bound as u64, found.elements as u64];
            tell(DONE, 0, 0, answer)
        }
        Err(why) => refused(why, answer),
    }
}

fn find_member(bytes: &[u8], mode: Mode, number: usize) -> Result<ReadMember<'_>, Refusal>
    ensures { result ≡ type_member mode bytes.entry number }
{
    let root = walk::parse::<AdsDataTypeInfo>(bytes, mode)?;
    let member = root.member(number)?;
    let data_type = AdsDataTypeInfo::read(member.own, mode)?;
    Ok(ReadMember {
        position: member.position,
        data_type,
    })
}

fn position_slots(position: &Position) -> [u64; 17]
    ensures { result ≡ position_slots position.now }
{
    let mut slots = [0; 17];
    slots[0] = position.depth as u64;
    slots[1] = position.offset;
    slots[2..].copy_from_slice(&position.path.map(|place| place as u64));
    slots
}

/// The member with a number, counted from 0, of the data type at the start of some bytes.
#[tactic(auto, using(crate::proofs::Shown::member_shown))]
pub fn member(
    bytes: &[u8],
    mode: Mode,
    number: usize,
    slots: &mut [u64; 21],
    guid: &mut [u8; 16],
    path: &mut [u64; 17],
    answer: &mut [u64; 2],
) -> u32
    ensures tells { Tells (record_told (type_member mode bytes.entry number)) result answer.new }
    ensures slots_after { slots.new ≡ slots_after member_slots (type_member mode bytes.entry number) slots.old }
    ensures guid_after { guid.new ≡ slots_after member_guid (type_member mode bytes.entry number) guid.old }
    ensures path_after { path.new ≡ slots_after path_slots (type_member mode bytes.entry number) path.old }
{
    match find_member(bytes, mode, number) {
        Ok(found) => {
            *path = position_slots(&found.position);
            tell_record(&found.data_type, slots, guid, answer)
        }
        Err(why) => refused(why, answer),
    }
}
