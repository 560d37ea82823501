// What can be asked of the entry at the start of some bytes, whatever its kind.
ghost use Rattle.std.specs.Prelude.{◌≡◌, List, ℕ, Ok};
ghost use Rattle.std.specs.Borrow.{Bor};
ghost use Rattle.refusal.specs.declared.Mode.{Mode};
ghost use Rattle.attribute.specs.declared.Attributes.{Attributes};
ghost use Rattle.part.specs.End.{IsEnd};
ghost use Rattle.places.specs.Entry.{entry_attribute, entry_attribute_named, symbol_refactor_info};
ghost use Rattle.places.specs.Kind.{symbol_attributes_end, field_attributes_end, type_attributes_end};

use crate::{
    AttributePlaces, RefactorPlaces, attribute_named, attribute_numbered, refactor_numbered,
};
use attribute::Attributes;
use data_type::AdsDataTypeInfo;
use field::AdsFieldInfo;
use refusal::{Mode, Refusal};
use symbol::AdsSymbolInfo;
use walk::Entry;

/// A kind of entry that shows attributes: what is left behind them reaches to its end.
pub trait Attributed<'a>: Entry<'a> {
    ghost shown: { Self → Attributes };

    fn shown(&self) -> Attributes<'a>
        ensures { result ≡ shown self.now };

    ghost at_end: { (mode : Mode) (e : Bor (List ℕ)) (r : Self) → Self.read mode e ≡ Ok r → IsEnd e (shown r).bytes };
}

impl<'a> Attributed<'a> for AdsSymbolInfo<'a> {
    ghost shown = { λ r. r.attributes };

    fn shown(&self) -> Attributes<'a> {
        self.attributes
    }

    ghost at_end = { symbol_attributes_end };
}

impl<'a> Attributed<'a> for AdsFieldInfo<'a> {
    ghost shown = { λ r. r.attributes };

    fn shown(&self) -> Attributes<'a> {
        self.attributes
    }

    ghost at_end = { field_attributes_end };
}

impl<'a> Attributed<'a> for AdsDataTypeInfo<'a> {
    ghost shown = { λ r. r.field.attributes };

    fn shown(&self) -> Attributes<'a> {
        self.field.attributes
    }

    ghost at_end = { type_attributes_end };
}

/// The attribute with a number, counted from 0.
///
/// # Errors
///
/// Those of reading, then 14.
#[tactic(auto, using(crate::proofs::Direct::numbered_direct), unfolding(entry::specs::Entry::claim_of))]
pub fn entry_attribute<'a, E: Attributed<'a>>(
    bytes: &'a [u8],
    mode: Mode,
    number: usize,
) -> Result<AttributePlaces, Refusal>
    ensures { result ≡ entry_attribute E.HEADER (E.read mode) E.shown bytes.entry number }
{
    let size = entry::claim(bytes, E::header())?;
    let own = &bytes[..size];
    let found = E::read(own, mode)?;
    attribute_numbered(own, found.shown(), number)
}

/// The first attribute with a name.
///
/// # Errors
///
/// Those of reading, then 13.
#[tactic(auto, using(crate::proofs::Direct::named_direct), unfolding(entry::specs::Entry::claim_of))]
pub fn entry_attribute_named<'a, E: Attributed<'a>>(
    bytes: &'a [u8],
    mode: Mode,
    name: &[u8],
) -> Result<AttributePlaces, Refusal>
    ensures { result ≡ entry_attribute_named E.HEADER (E.read mode) E.shown bytes.entry name.now }
{
    let size = entry::claim(bytes, E::header())?;
    let own = &bytes[..size];
    let found = E::read(own, mode)?;
    attribute_named(own, found.shown(), name)
}

/// The refactor record of a symbol with a number, counted from 0.
///
/// # Errors
///
/// Those of reading, then 14.
#[tactic(auto, using(crate::specs::Kind::refactor_infos_end, crate::proofs::Direct::refactor_direct), unfolding(entry::specs::Entry::claim_of))]
pub fn symbol_refactor_info(
    bytes: &[u8],
    mode: Mode,
    number: usize,
) -> Result<RefactorPlaces, Refusal>
    ensures { result ≡ symbol_refactor_info mode bytes.entry number }
{
    let size = entry::claim(bytes, AdsSymbolInfo::header())?;
    let own = &bytes[..size];
    let symbol = AdsSymbolInfo::read(own, mode)?;
    refactor_numbered(own, symbol.refactor_infos, number)
}
