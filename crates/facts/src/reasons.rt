//! Why a section is not shown, or no more of it, in a few words (docs/FORMAT.md, "Why").
ghost use Rattle.std.specs.Prelude.{◌≡◌, Some};
ghost use Rattle.facts.specs.Facts.{because, falls_short};

use std::fmt;
use why::Reason;
use why_report::Missing;
use wording::{Bytes, InWords};

/// What stands behind `none: ` or `no more: `.
#[derive(Clone, Copy)]
pub(crate) struct Because<'a>(pub &'a Reason);

impl fmt::Display for Because<'_> {
    ghost output = { λ b. Some (because b.0.now) };

    #[tactic(auto, unfolding(crate::specs::Facts::because))]
    fn fmt<W: fmt::Write>(&self, f: &mut fmt::Formatter<W>) -> fmt::Result {
        match self.0 {
            Reason::NotFlagged => f.write_str("not flagged"),
            Reason::NoExtendedFlags => f.write_str("there are no extended flags"),
            Reason::NoRoom { place, left } => {
                let place = *place;
                let are = if *left == 1 { "is" } else { "are" };
                let left = Bytes(*left);
                write!(f, "flagged, but {left} {are} left at place {place}")
            }
            Reason::Whole { place: _, count } => {
                let count = *count;
                write!(f, "their count is {count}")
            }
            Reason::Refused { record, place, why } => {
                let (record, place) = (*record, *place);
                let why = InWords(why);
                write!(f, "record {record} is refused at place {place}, {why}")
            }
            Reason::Owed { announced, owed } => {
                let missing = Missing {
                    announced: *announced,
                    owed: *owed,
                };
                missing.fmt(f)
            }
        }
    }
}

/// Whether a list that shows something was to show more.
pub(crate) fn falls_short(reason: &Reason) -> bool
    ensures { result ≡ falls_short reason.now }
{
    matches!(reason, Reason::Refused { .. } | Reason::Owed { .. })
}
