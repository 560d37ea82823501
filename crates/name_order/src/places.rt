//! Where an entry has its name (docs/FORMAT.md, "Name index").
#![tactic(auto)]

ghost use Rattle.std.specs.Prelude.{◌+◌, ◌≤◌};

/// Where an entry has its name, in bytes from the entry's start.
#[derive(Clone, Copy, Debug)]
pub struct NamePlaces {
    /// Where the two bytes of the name's length stand.
    pub length: usize,
    /// Where the name begins.
    pub name: usize,
    ghost behind: { length + 2 ≤ name },
}
