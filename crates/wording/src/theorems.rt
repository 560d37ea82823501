//! The theorems. Each is the contract of a function that does nothing, so that none goes unnoticed if its proof does.

ghost use Rattle.wording.specs.Meant.{NumbersTold, RefusalsTold, StringsQuoted, StringsShown};

/// A number is told by its digits in groups of three, and tells this number.
pub fn numbers_told()
    ensures { NumbersTold }
{}

/// Every refusal is told by its own number and in its own words, with its figures where they stand.
pub fn refusals_told()
    ensures { RefusalsTold }
{}

/// A string of JSON reads back as the characters of the bytes, and has no control character and no bare quotation mark.
pub fn strings_quoted()
    ensures { StringsQuoted }
{}

/// What a terminal is shown has no control character, tells each byte's character, and is as wide as it has characters.
pub fn strings_shown()
    ensures { StringsShown }
{}
