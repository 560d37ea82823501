//! The theorems. Each is the contract of a function that does nothing, so that none goes unnoticed if its proof does.

ghost use Rattle.differences.specs.Meant.{DifferencesMeant};

/// Of two accepted entries exactly those parts are told, in the order of the entry, each once, that one of the two has alone or whose bytes
/// differ, but for the lengths of the strings: what each tells, or where both tell the same, the first byte in which they differ, each with
/// the place in its entry. Where one or both are refused it is why, or where both are refused alike, the first byte. Nothing is told exactly
/// where both are accepted and their bytes are the same.
pub fn differences_meant()
    ensures { DifferencesMeant }
{}
