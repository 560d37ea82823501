//! What is listed of a capture: each line is its piece alone. Nothing to run, but its theorem. docs/FORMAT.md, "Captures".
#![tactic(auto)]

ghost use Rattle.captures_listed.specs.Listed.{LinesListed};

// The theorem is the contract of a function that does nothing, so that it does not go unnoticed if its proof does.

/// The row of a piece of at most 16,384 bytes in a line of its own is what the walk of the whole upload tells of it, but for the
/// line, which is its own, the start, which is 0, and the figures of fewer than 4 bytes; a longer piece is refused with 12.
pub fn lines_listed()
    ensures { LinesListed }
{}
