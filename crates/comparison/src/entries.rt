//! What is told of an entry that both uploads have.
ghost use Rattle.std.specs.Prelude.{◌≡◌, IfOk};
ghost use Rattle.differences.specs.Differences.{differences_of};
ghost use Rattle.comparison.specs.Entries.{entry_of, told_of_both};

use differences::{Difference, Entry, differences};
use pairing::pieces::Piece;
use refusal::Mode;
use std::alloc::{AllocError, Global};
use symbol::AdsSymbolInfo;

// A piece of which no name was read was refused where it stands in its upload.
fn entry_of<'a>(piece: &Piece<'a>, mode: Mode) -> Entry<'a>
    ensures { result ≡ entry_of mode piece.now }
{
    let answer = match piece.name {
        Ok(_) => <AdsSymbolInfo<'a> as walk::Entry<'a>>::read(piece.bytes, mode),
        Err(why) => Err(why),
    };
    Entry {
        bytes: piece.bytes,
        answer,
    }
}

/// In which parts a piece of A and one of B differ, as they are read in a mode.
pub(crate) fn differences_in<'a>(
    alloc: Global,
    a: &Piece<'a>,
    b: &Piece<'a>,
    mode: Mode,
) -> Result<Vec<Difference<'a>>, AllocError>
    ensures { IfOk result (λ all. all.items ≡ told_of_both mode a.now b.now) }
{
    differences(alloc, &entry_of(a, mode), &entry_of(b, mode))
}
