//! How much the rows of a sheet are.

ghost use Rattle.std.specs.Prelude.{◌≡◌, [], ◌∷◌, ◌+◌, ◌-◌, ◌≤◌, ◌<◌, ◌^◌, length, true};
ghost use Rattle.sheet_rows.specs.Meant.{IsRow};
ghost use Rattle.sheet_rows.specs.Extent.{quotes, text_length, row_extent, joined};

use crate::cells::Three;

/// How many rows there are, and how long the texts of their last three cells are, two quotes counted as one.
#[derive(Clone, Copy)]
pub struct Extent {
    /// How many rows.
    pub rows: usize,
    /// How many bytes all these texts have together.
    pub bytes: usize,
    /// How many bytes the longest has.
    pub longest: usize,
}

#[tactic(auto, using(crate::proofs::Quotes::quotes_more, crate::proofs::Quotes::quotes_same, crate::proofs::Quotes::quotes_end))]
fn count_quotes(text: &[u8]) -> usize
    ensures { result ≡ quotes text.now }
{
    let mut count = 0;
    for byte in text {
        if *byte == b'"' {
            count += 1;
        }
    }
    count
}

/// How many bytes a cell's text has, two quotes counted as one.
#[tactic(auto, unfolding(crate::specs::Extent::text_length), using(crate::proofs::Quotes::quotes_few))]
pub fn text_length(text: &[u8]) -> usize
    ensures { result ≡ text_length text.now }
{
    text.len() - count_quotes(text) / 2
}

// Whether none of the three cells that end a row stands between quotes, where another row follows: they have no byte then but their
// texts, two commas, CR and LF, and quotes around a cell are two more.
fn are_bare(line: &[u8], cells: &Three<'_>) -> bool
    requires { IsRow (cells.now.first.now ∷ cells.now.second.now ∷ cells.now.third.now ∷ []) line.now cells.now.rest.now }
    ensures { result ≡ true → quotes cells.now.first.now + quotes cells.now.second.now + quotes cells.now.third.now ≡ 0 }
{
    let texts = cells.first.len() + cells.second.len() + cells.third.len();
    !cells.rest.is_empty() && line.len() - cells.rest.len() <= texts + 4
}

// How many bytes a cell's text has, whose quotes are looked for only where there may be some.
#[tactic(auto, unfolding(crate::specs::Extent::text_length))]
fn length_if(bare: bool, text: &[u8]) -> usize
    requires { bare ≡ true → quotes text.now ≡ 0 }
    ensures { result ≡ text_length text.now }
{
    if bare {
        return text.len();
    }
    text_length(text)
}

/// The extent of some rows, and of one more: its bytes from the name on, and the cells that are read there.
#[tactic(auto, unfolding(crate::specs::Extent::row_extent))]
pub fn with_row(extent: Extent, line: &[u8], cells: &Three<'_>) -> Extent
    requires row { IsRow (cells.now.first.now ∷ cells.now.second.now ∷ cells.now.third.now ∷ []) line.now cells.now.rest.now }
    requires rows { extent.rows + 1 < 2 ^ 64 }
    requires bytes { extent.bytes + (row_extent cells.now).bytes < 2 ^ 64 }
    ensures { result ≡ joined extent (row_extent cells.now) }
{
    let bare = are_bare(line, cells);
    let name = length_if(bare, cells.first);
    let type_name = length_if(bare, cells.second);
    let comment = length_if(bare, cells.third);
    Extent {
        rows: extent.rows + 1,
        bytes: extent.bytes + (name + type_name + comment),
        longest: extent.longest.max(name.max(type_name.max(comment))),
    }
}
