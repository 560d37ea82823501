//! The last line of the table.
ghost use Rattle.std.specs.Prelude.{◌≡◌, Some};
ghost use Rattle.pairing.specs.Rows.{rows_in};
ghost use Rattle.comparison.specs.Counts.{nothing, counted, counted_on, added, counted_text};

use pairing::rows::{Row, Rows};
use std::fmt;
use wording::{Grouped, Many};

/// How many entries there are, and how they compare.
#[derive(Clone, Copy)]
pub(crate) struct Counted {
    in_a: usize,
    in_b: usize,
    alike: usize,
    different: usize,
    only_in_a: usize,
    only_in_b: usize,
    moved: usize,
}

// One more, if it is one.
fn add(count: &mut usize, is_one: bool)
    ensures { count.new ≡ added count.old is_one }
{
    if is_one {
        *count = count.saturating_add(1);
    }
}

impl Counted {
    fn new() -> Counted
        ensures { result ≡ nothing }
    {
        Counted {
            in_a: 0,
            in_b: 0,
            alike: 0,
            different: 0,
            only_in_a: 0,
            only_in_b: 0,
            moved: 0,
        }
    }

    /// Counts all rows.
    #[tactic(auto, unfolding(crate::specs::Counts::counted_on))]
    pub fn of(rows: &Rows<'_, '_>) -> Counted
        ensures { result ≡ counted_on nothing (rows_in rows.now) }
    {
        let mut counted = Counted::new();
        for pair in rows.pairs {
            counted.count(&rows.row(pair));
        }
        counted
    }

    #[tactic(auto, unfolding(crate::specs::Counts::counted))]
    fn count(&mut self, row: &Row<'_>)
        ensures { self.new ≡ counted self.old row.now }
    {
        let has_a = row.a.is_some();
        let has_b = row.b.is_some();
        let has_both = has_a && has_b;
        let is_alike = row.is_alike();
        add(&mut self.in_a, has_a);
        add(&mut self.in_b, has_b);
        add(&mut self.alike, is_alike);
        add(&mut self.different, has_both && !is_alike);
        add(&mut self.only_in_a, has_a && !has_b);
        add(&mut self.only_in_b, has_b && !has_a);
        add(&mut self.moved, has_both && !row.is_in_place());
    }
}

impl fmt::Display for Counted {
    ghost output = { λ c. Some (counted_text c) };

    #[tactic(auto, unfolding(crate::specs::Counts::counted_text))]
    fn fmt<W: fmt::Write>(&self, f: &mut fmt::Formatter<W>) -> fmt::Result {
        let in_a = Many {
            number: self.in_a,
            one: "entry",
            more: "entries",
        };
        let in_b = Grouped(self.in_b);
        let alike = Grouped(self.alike);
        let different = Grouped(self.different);
        write!(
            f,
            "{in_a} in A, {in_b} in B: {alike} alike, {different} different, "
        )?;
        let only_in_a = Grouped(self.only_in_a);
        let only_in_b = Grouped(self.only_in_b);
        let moved = Grouped(self.moved);
        write!(
            f,
            "{only_in_a} only in A, {only_in_b} only in B; at other places: {moved}"
        )
    }
}
