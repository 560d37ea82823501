//! The theorems. Each is the contract of a function that does nothing, so that none goes unnoticed if its proof does.

ghost use Rattle.sections.specs.Laid.{SectionsLaid, SectionsTold};
ghost use Rattle.sections.specs.Named.{PartsNamed};

/// Whatever the symbol, the sections follow one another without a gap from the entry's first byte to its last, each of them
/// the entry's own bytes from its place on, and none is empty.
pub fn sections_laid()
    ensures { SectionsLaid }
{}

/// Of a symbol that was read from the entry each section is what its part is by the entry's bytes: a number of the header at
/// its place, a string with its end byte, the record of an attribute or a former name, what is unread.
pub fn sections_told()
    ensures { SectionsTold }
{}

/// The name of each part, word for word.
pub fn parts_named()
    ensures { PartsNamed }
{}
