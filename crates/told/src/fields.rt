// What is told of a field.
ghost use Rattle.told.specs.Slots.{field_slots};
ghost use Rattle.told.specs.Shown.{IsFieldShown, fields_shown};

use crate::records::Told;
use field::AdsFieldInfo;

impl<'a> Told<'a> for AdsFieldInfo<'a> {
    type Slots = [u64; 17];

    ghost shown = { IsFieldShown };

    ghost slots = { field_slots };

    ghost guid = { λ r. r.guid };

    #[inline(always)]
    #[tactic(auto, unfolding(crate::specs::Slots::field_slots))]
    fn slots(&self) -> [u64; 17] {
        let name_len = self.name.len();
        let type_name_len = self.type_name.len();
        [
            self.length as u64,
            self.version as u64,
            self.hash_value as u64,
            self.type_hash_value as u64,
            self.size as u64,
            self.offset as u64,
            self.type_id as u64,
            self.flags.0 as u64,
            42,
            name_len as u64,
            (43 + name_len) as u64,
            type_name_len as u64,
            (44 + name_len + type_name_len) as u64,
            self.comment.len() as u64,
            self.guid.is_some() as u64,
            (self.length - self.attributes.bytes.len()) as u64,
            self.attributes.count as u64,
        ]
    }

    #[inline(always)]
    fn guid(&self) -> Option<[u8; 16]> {
        self.guid
    }

    ghost accepted = { fields_shown };
}
