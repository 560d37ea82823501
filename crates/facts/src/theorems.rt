//! The theorems. Each is the contract of a function that does nothing, so that none goes unnoticed if its proof does.
ghost use Rattle.facts.specs.Told.{FactsMeant};
ghost use Rattle.facts.specs.Words.{ReasonsMeant};

/// Of a symbol that was read each fact stands in its line, by the bytes of the entry, behind its heading; what the sections
/// hold, or why there is nothing, behind these.
pub fn facts_meant()
    ensures { FactsMeant }
{}

/// Each reason, word for word, with every figure different; and which of them are told behind attributes that are shown.
pub fn reasons_meant()
    ensures { ReasonsMeant }
{}
