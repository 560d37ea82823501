//! Data types and their members, each where it stands and with its marks, as `type` tells them (docs/FORMAT.md, "The command's text").
#![tactic(auto)]

ghost use Rattle.std.specs.Prelude.{◌≡◌};
ghost use Rattle.type_tree.specs.Counts.{none_counted, counted};

pub mod marks;
pub mod node;
pub mod theorems;

use data_type::AdsDataTypeInfo;
use refusal::Refusal;

/// How many entries there are, and how many were refused. A count stays at the highest number once it is there.
#[derive(Clone, Copy, Debug)]
pub struct Counts {
    /// All of them.
    pub all: usize,
    /// Those that were refused.
    pub refused: usize,
}

impl Counts {
    /// Of no entry yet.
    pub fn new() -> Self
        ensures { result ≡ none_counted }
    {
        Counts { all: 0, refused: 0 }
    }

    /// One more.
    #[tactic(auto, unfolding(crate::specs::Counts::counted))]
    pub fn count(&mut self, answer: &Result<AdsDataTypeInfo<'_>, Refusal>)
        ensures { self.new ≡ counted self.old answer.now }
    {
        self.all = self.all.saturating_add(1);
        if answer.is_err() {
            self.refused = self.refused.saturating_add(1);
        }
    }
}
