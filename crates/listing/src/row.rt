//! A row of the listing: a value that prints itself.
ghost use Rattle.std.specs.Prelude.{◌≡◌, Some, IfOk, string_bytes};
ghost use Rattle.listing.specs.Row.{hex, entry_row, refusal_row};

use refusal::Figures;
use std::alloc::{AllocError, Global};
use std::fmt;
use symbol::AdsSymbolInfo;

/// Bytes in hexadecimal, in capitals; a dash where there are none.
#[tactic(auto, unfolding(crate::specs::Row::hex))]
pub fn spell(bytes: &[u8], alloc: Global) -> Result<String, AllocError>
    ensures { IfOk result (λ text. string_bytes text ≡ hex bytes.now) }
{
    if bytes.is_empty() {
        return format!(in alloc; "-");
    }
    hex::encode_upper(alloc, bytes)
}

/// An entry that was read.
#[derive(Clone, Copy)]
pub struct EntryRow<'a> {
    /// The number of the line, from 1.
    pub line: u64,
    /// Where the entry starts, in bytes from the start of the frame.
    pub start: usize,
    /// The symbol that was read there.
    pub info: &'a AdsSymbolInfo<'a>,
    /// Its name, spelt in digits.
    pub name: &'a str,
    /// Its type's name, likewise.
    pub type_name: &'a str,
}

impl fmt::Display for EntryRow<'_> {
    ghost output = { λ r. Some (entry_row r.line r.start r.info.now r.name.now r.type_name.now) };

    #[tactic(auto, unfolding(crate::specs::Row::entry_row))]
    fn fmt<W: fmt::Write>(&self, f: &mut fmt::Formatter<W>) -> fmt::Result {
        let line = self.line;
        let start = self.start;
        let info = self.info;
        let length = info.length;
        let group = info.index_group.0;
        let offset = info.index_offset.0;
        let size = info.size;
        let type_id = info.data_type_id;
        let flags = info.flags.0;
        let unread = info.unread.len();
        let attributes = info.attributes.count;
        let refactors = info.refactor_infos.count;
        let name = self.name;
        let type_name = self.type_name;
        let high = info.high;
        write!(
            f,
            "{line} {start} {length} {group} {offset} {size} {type_id} "
        )?;
        write!(
            f,
            "{flags} {unread} {attributes} {refactors} {name} {type_name} {high}"
        )
    }
}

/// Why none was read there.
#[derive(Drop)]
pub struct RefusalRow {
    /// The number of the line, from 1.
    pub line: u64,
    /// Where the step began, in bytes from the start of the frame.
    pub start: usize,
    /// The refusal's number and figures.
    pub figures: Figures,
}

impl fmt::Display for RefusalRow {
    ghost output = { λ r. Some (refusal_row r.line r.start r.figures) };

    #[tactic(auto, unfolding(crate::specs::Row::refusal_row))]
    fn fmt<W: fmt::Write>(&self, f: &mut fmt::Formatter<W>) -> fmt::Result {
        let line = self.line;
        let start = self.start;
        let number = self.figures.number;
        let expected = self.figures.expected;
        let got = self.figures.got;
        write!(f, "{line} {start} refused {number} {expected} {got}")
    }
}
