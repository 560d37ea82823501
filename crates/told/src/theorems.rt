// The theorems, as the contracts of functions that do nothing.
ghost use Rattle.told.specs.One.{OneTelling, OneWriting, OneWritingBoth};
ghost use Rattle.told.specs.Calls.{CallsTold};
ghost use Rattle.told.specs.Lent.{LentKept};
ghost use Rattle.told.specs.Meaning.{SymbolsTold, FieldsTold, AttributesTold, RefactorsTold, ChainsTold};
ghost use Rattle.told.specs.TypeMeaning.{TypesTold, ArraysTold, MembersTold};

/// Two statuses and two answers that one promise allows are equal.
pub fn one_telling()
    ensures { OneTelling }
{}

/// And two contents of a lent buffer.
pub fn one_writing()
    ensures { OneWriting }
{}

/// And of two lent buffers.
pub fn one_writing_both()
    ensures { OneWritingBoth }
{}

/// A call is given the mode that its argument names; a number is told first, and 0 after it; of a salvage the bytes before the slots.
pub fn calls_told()
    ensures { CallsTold }
{}

/// Lent slots, GUID bytes and places of a path are written over by what was found; a refusal and a step at the end leave them as they were.
pub fn lent_kept<A>()
    ensures { LentKept A }
{}

/// Each slot of a symbol says what the bytes of its entry say: a number at its place, a string or a list by its own place.
pub fn symbols_told()
    ensures { SymbolsTold }
{}

/// And of a field.
pub fn fields_told()
    ensures { FieldsTold }
{}

/// The slots of an attribute are the places of its strings, and of what is read after it.
pub fn attributes_told()
    ensures { AttributesTold }
{}

/// And of a refactor record.
pub fn refactors_told()
    ensures { RefactorsTold }
{}

/// Of a chain the two numbers are how many records it has, and the place after them.
pub fn chains_told()
    ensures { ChainsTold }
{}

/// And of a data type.
pub fn types_told()
    ensures { TypesTold }
{}

/// The slots of an array record with a number are the two numbers that stand at its place; past the array records 14.
pub fn arrays_told()
    ensures { ArraysTold }
{}

/// The member with a number is told, as a data type that begins at the last place of its path; past the members 14.
pub fn members_told()
    ensures { MembersTold }
{}
