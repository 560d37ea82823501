//! The theorems. Each is the contract of a function that does nothing, so that none goes unnoticed if its proof does.

ghost use Rattle.values.specs.Meant.{SameMeant};
ghost use Rattle.values.specs.Told.{RecordsTold, ValuesTold};
ghost use Rattle.values.specs.ValuesMeant.{ValuesMeant};
ghost use Rattle.values.specs.Words.{WordsMeant};

/// Of a symbol that was read from the entry each section tells what its own bytes say: a number of the header low byte first,
/// a string without its end byte, a GUID; the count of attributes how many are shown.
pub fn values_told()
    ensures { ValuesTold }
{}

/// The bytes of a whole attribute tell its name and its value, those of a whole former name this name, each by the lengths
/// that stand before them.
pub fn records_told()
    ensures { RecordsTold }
{}

/// Flag words as they are told, each bit alone, some together, and what has no name; and what is told of a string.
pub fn words_meant()
    ensures { WordsMeant }
{}

/// Each kind of value as it is written for people and in JSON, word for word, with every number another.
pub fn values_meant()
    ensures { ValuesMeant }
{}

/// Two values tell the same exactly where they are of one kind, with the same numbers and the same bytes, wherever these lie.
pub fn same_meant()
    ensures { SameMeant }
{}
