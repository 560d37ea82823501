//! What the field writer writes comes back from the walk: nothing to run, but that theorem and those around it. docs/FORMAT.md, "Fit records".
#![tactic(auto)]

ghost use Rattle.field.specs.declared.writer.NewField.{NewField};
ghost use Rattle.field.specs.Writing.{field_bytes};
ghost use Rattle.field.specs.Told.{Told, told_of, meant};
ghost use Rattle.fields_regrown.specs.Kind.{IsFit, reads_back};
ghost use Rattle.fields_regrown.specs.Theorems.{FieldsComeBack, FieldsShutOut, WrittenFieldsFit, FieldsFaithful, FieldsByName};

use field::AdsFieldInfo;
use regrown::Fits;

/// The fields that the writer accepts and that agree with their flags.
pub struct WrittenFields;

impl<'a> Fits<'a> for WrittenFields {
    type Record = AdsFieldInfo<'a>;

    ghost Parts = { NewField };

    ghost Told = { Told };

    ghost Fit = { IsFit };

    ghost written = { field_bytes };

    ghost meant = { meant };

    ghost told = { told_of };

    ghost reads_back = { reads_back };
}

// The theorems. Each is the contract of a function that does nothing, so that none goes unnoticed if its proof does.

/// Fit fields, written one after another, each entry grown by any bytes at its end, come back from the walk, whole and cut anywhere, within the limit.
pub fn fields_come_back()
    ensures { FieldsComeBack }
{
    regrown::come_back::<WrittenFields>()
}

/// A step that never gives a record, and one that gives a record wherever it is asked, do not meet it.
pub fn fields_shut_out()
    ensures { FieldsShutOut }
{}

/// Where the field writer answers that it wrote so many bytes of a field that has no methods, a GUID exactly if it is flagged, and attributes only if they are, the
/// field is fit, and these are the bytes that come back.
pub fn written_fields_fit()
    ensures { WrittenFieldsFit }
{}

/// Two fit fields that mean the same are written as the same bytes.
pub fn fields_faithful()
    ensures { FieldsFaithful }
{}

/// What was written under an attribute's name is told for that name, of two alike the first; where none has it, 13.
pub fn fields_by_name()
    ensures { FieldsByName }
{}
