//! Where the entries of both uploads stand otherwise apart than those before them.
ghost use Rattle.std.specs.Prelude.{◌≡◌};
ghost use Rattle.comparison.specs.Entries.{shift_behind};
ghost use Rattle.comparison.specs.Moved.{moved_in};

use pairing::pieces::Shift;
use pairing::rows::Row;

/// Here the same entry stands further apart, or less far, than that before it.
#[derive(Clone, Copy)]
pub(crate) struct Moved {
    pub place_in_a: usize,
    pub place_in_b: usize,
    /// How many bytes further on it stands in B.
    pub shift: Shift,
}

impl Moved {
    /// That the entry of a row stands otherwise apart than the one before.
    pub fn of(row: &Row<'_>, before: Shift) -> Option<Moved>
        ensures { result ≡ moved_in before row.now.a row.now.b }
    {
        match (&row.a, &row.b) {
            (Some(a), Some(b)) => {
                let shift = a.until(b);
                if shift.is(before) {
                    return None;
                }
                Some(Moved {
                    place_in_a: a.place,
                    place_in_b: b.place,
                    shift,
                })
            }
            _ => None,
        }
    }
}

/// How far apart the entry of a row stands, or the one before if only one upload has it.
pub(crate) fn shift_behind(row: &Row<'_>, before: Shift) -> Shift
    ensures { result ≡ shift_behind before row.now }
{
    row.shift().unwrap_or(before)
}
