//! What the field writer writes comes back from the walk over data types: nothing to run, but that theorem and those around it. docs/FORMAT.md, "Fit records".
#![tactic(auto)]

ghost use Rattle.field.specs.declared.writer.NewField.{NewField};
ghost use Rattle.field.specs.Writing.{field_bytes};
ghost use Rattle.fields_regrown.specs.Kind.{IsFit};
ghost use Rattle.data_type.specs.Told.{Told, told_of};
ghost use Rattle.types_regrown.specs.Told.{meant};
ghost use Rattle.types_regrown.specs.Kind.{reads_back};
ghost use Rattle.types_regrown.specs.Theorems.{TypesComeBack, TypesShutOut, PlainEntries};

use data_type::AdsDataTypeInfo;
use regrown::Fits;

/// The fields that the field writer accepts and that agree with their flags, read as data types.
pub struct WrittenTypes;

impl<'a> Fits<'a> for WrittenTypes {
    type Record = AdsDataTypeInfo<'a>;

    ghost Parts = { NewField };

    ghost Told = { Told };

    ghost Fit = { IsFit };

    ghost written = { field_bytes };

    ghost meant = { meant };

    ghost told = { told_of };

    ghost reads_back = { reads_back };
}

// The theorems. Each is the contract of a function that does nothing, so that none goes unnoticed if its proof does.

/// Fit fields, written one after another, each entry grown by any bytes at its end, come back from the walk over data types, whole and cut anywhere,
/// with no array record and no member, within the limit.
pub fn types_come_back()
    ensures { TypesComeBack }
{
    regrown::come_back::<WrittenTypes>()
}

/// A step that never gives a record, and one that gives a record wherever it is asked, do not meet it.
pub fn types_shut_out()
    ensures { TypesShutOut }
{}

/// An entry with no array record and no sub-item is read as a field is, with no member: the same record or the same refusal.
pub fn plain_entries()
    ensures { PlainEntries }
{}
