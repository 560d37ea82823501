// What is told of a symbol.
ghost use Rattle.told.specs.Slots.{symbol_slots};
ghost use Rattle.told.specs.Shown.{IsShown, symbols_shown};

use crate::records::Told;
use symbol::AdsSymbolInfo;

impl<'a> Told<'a> for AdsSymbolInfo<'a> {
    type Slots = [u64; 21];

    ghost shown = { IsShown };

    ghost slots = { symbol_slots };

    ghost guid = { λ r. r.guid };

    #[inline(always)]
    #[tactic(auto, unfolding(crate::specs::Slots::symbol_slots))]
    fn slots(&self) -> [u64; 21] {
        let name_len = self.name.len();
        let type_name_len = self.type_name.len();
        let attributes = self.attributes;
        let refactor_infos = self.refactor_infos;
        [
            self.length as u64,
            self.index_group.0 as u64,
            self.index_offset.0 as u64,
            self.size as u64,
            self.data_type_id as u64,
            self.flags.0 as u64,
            self.high as u64,
            30,
            name_len as u64,
            (31 + name_len) as u64,
            type_name_len as u64,
            (32 + name_len + type_name_len) as u64,
            self.comment.len() as u64,
            self.guid.is_some() as u64,
            (self.length - attributes.bytes.len()) as u64,
            attributes.count as u64,
            self.extended_flags.is_some() as u64,
            self.extended_flags.map_or(0, |flags| flags.0) as u64,
            (self.length - refactor_infos.bytes.len()) as u64,
            refactor_infos.count as u64,
            self.unread.len() as u64,
        ]
    }

    #[inline(always)]
    fn guid(&self) -> Option<[u8; 16]> {
        self.guid
    }

    ghost accepted = { symbols_shown };
}
