//! Theorems. Each is the contract of a function that does nothing, so that none goes unnoticed if its proof does.
ghost use Rattle.field.specs.Laid.{FieldsLaid};
ghost use Rattle.field.specs.Modes.{FieldsModes};
ghost use Rattle.field.specs.Placed.{FieldsPlaced, FieldsRead};
ghost use Rattle.field.specs.Refused.{FieldsRefused};
ghost use Rattle.field.specs.Told.{IsTyped, FieldsAnywhere};
ghost use Rattle.field.specs.Bytes.{FieldsInBytes};
ghost use Rattle.field.specs.Written.{FieldsWritten};
ghost use Rattle.field.specs.Within.{FieldsWithin};

use crate::writer::NewField;

/// What a field that is accepted tells is a number of its header or a part of its entry, each string with its end byte; it shows
/// as many attributes as it counts: none of these is refused by its number.
pub fn fields_within()
    ensures { FieldsWithin }
{}

/// Of a field that is accepted, the GUID and the attributes are those at the places where they begin by what stands before them:
/// what is flagged and has no room is absent and moves nothing, and a copy mask leads to the entry's end at most.
pub fn fields_placed()
    ensures { FieldsPlaced }
{}

/// An entry that has a header and strings is read in the present mode, however few bytes its sections have; a refused attribute
/// alone refuses it.
pub fn fields_read()
    ensures { FieldsRead }
{}

/// An entry is read and refused alike in both modes where 0 follows every string that is met; any other that has a header and
/// strings is refused in the checked mode by the first end byte that is not 0. Each end byte is a byte of the entry. Attributes are met
/// up to one that is refused.
pub fn fields_modes()
    ensures { FieldsModes }
{}

/// An entry's own bytes are refused by the first of these and by no other: no header, no strings, an end byte in the checked mode,
/// an attribute that is refused; each with its figures.
pub fn fields_refused()
    ensures { FieldsRefused }
{}

/// What a field is written from is typed: no more is asked of it than its types say.
pub fn typed(field: NewField<'_>)
    ensures { IsTyped field.entry }
{}

/// What stands behind the strings is passed over, or read, part by part as it lies there, and a refused attribute refuses the field.
pub fn fields_laid()
    ensures { FieldsLaid }
{}

/// A field is written exactly where its strings and its count are short, its flagged attributes are good, and its entry is within
/// the limit; else it is refused by the first of these that fails, and by no other.
pub fn fields_written()
    ensures { FieldsWritten }
{}

/// Each number of a field that is written stands at its place; behind the strings stands what is flagged, an absent GUID as 16
/// zeros and a copy mask as so many zeros as the size says.
pub fn fields_in_bytes()
    ensures { FieldsInBytes }
{}

/// What a field tells does not depend on where it lies in memory.
pub fn fields_anywhere()
    ensures { FieldsAnywhere }
{}
