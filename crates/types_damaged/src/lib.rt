//! One bad field, and one bad data type, stays one bad entry: what is read, salvaged and indexed of the others, and of data types what is found. Nothing to run, but its theorems. docs/FORMAT.md, "One bad entry".
#![tactic(auto)]

ghost use Rattle.refusal.specs.declared.Mode.{Mode};
ghost use Rattle.damage.specs.Theorems.{StaysInPlace, StaysAnywhere};
ghost use Rattle.field.specs.Field.{field_of};
ghost use Rattle.field.specs.Told.{Told as FieldTold, told_of as field_told};
ghost use Rattle.field.proofs.Anywhere.{fields_anywhere};
ghost use Rattle.data_type.specs.Told.{Told as TypeTold, told_of as type_told};
ghost use Rattle.data_type.proofs.Anywhere.{types_anywhere};
ghost use Rattle.data_type.specs.DataType.{type_of};
ghost use Rattle.named.specs.Kinds.{field_places};
ghost use Rattle.type_find.specs.Find.{own_name, find, find_indexed};
ghost use Rattle.name_index.specs.Index.{Halves};
ghost use Rattle.names_damaged.specs.Finding.{FindingStays};

use damage::Telling;
use data_type::AdsDataTypeInfo;
use field::AdsFieldInfo;

/// Fields, with what they tell.
pub struct TellingFields;

impl<'a> Telling<'a> for TellingFields {
    type Record = AdsFieldInfo<'a>;

    ghost Told = { FieldTold };

    ghost told = { field_told };

    ghost alike = { fields_anywhere };
}

/// Data types, with what they tell: a field, array records, and the members.
pub struct TellingTypes;

impl<'a> Telling<'a> for TellingTypes {
    type Record = AdsDataTypeInfo<'a>;

    ghost Told = { TypeTold };

    ghost told = { type_told };

    ghost alike = { types_anywhere };
}

// The theorems. Each is the contract of a function that does nothing, so that none goes unnoticed if its proof does.

/// Where the two uploads lie in the same place in memory, all that is given of other fields is the same.
pub fn fields_in_place()
    ensures { (mode : Mode) → StaysInPlace 42 (field_of mode) }
{
    damage::stays_in_place::<AdsFieldInfo>()
}

/// Wherever the two uploads lie, all that is told of other fields is the same.
pub fn fields_anywhere()
    ensures { (mode : Mode) → StaysAnywhere 42 (field_of mode) (λ r. r.length) field_told }
{
    damage::stays_anywhere::<TellingFields>()
}

/// Where the two uploads lie in the same place in memory, all that is given of other data types is the same.
pub fn types_in_place()
    ensures { (mode : Mode) → StaysInPlace 42 (type_of mode) }
{
    damage::stays_in_place::<AdsDataTypeInfo>()
}

/// Wherever the two uploads lie, all that is told of other data types is the same.
pub fn types_anywhere()
    ensures { (mode : Mode) → StaysAnywhere 42 (type_of mode) (λ r. r.field.length) type_told }
{
    damage::stays_anywhere::<TellingTypes>()
}

/// A name that no damaged entry has is found or refused alike: without an index, through each upload's own and that of the other, and by halving through each upload's own name index. By halving through that of the other a data type of that name is found, or 13 is answered, and the same where the slots are in order there too.
pub fn finding_stays()
    ensures { FindingStays 42 field_places type_of (λ r. r.field.length) own_name type_told find find_indexed (λ mode. Halves field_places (type_of mode) own_name) }
{
    names_damaged::finding_stays::<TellingTypes>()
}
