//! `show`: everything of one symbol, and the picture of its bytes (docs/FORMAT.md, "The command's text").
#![tactic(auto)]

ghost use Rattle.std.specs.Prelude.{OnOk};
ghost use Rattle.std.specs.Io.KnownBytes.{Appends};
ghost use Rattle.picture.specs.Show.{show_text};

mod rows;
pub mod theorems;

use facts::Facts;
use rows::Picture;
use sections::sections;
use std::alloc::Global;
use std::io;
use std::io::{ErrorKind, Write};
use symbol::AdsSymbolInfo;

/// A symbol that was found.
#[derive(Clone, Copy)]
pub struct Found<'a> {
    /// Where its entry starts in the upload.
    pub at: usize,
    /// The entry's own bytes.
    pub own: &'a [u8],
    /// What was read from them.
    pub symbol: AdsSymbolInfo<'a>,
}

/// Writes what a symbol tells, of each section that is not there or not whole why, and the picture of its bytes.
///
/// # Errors
///
/// Those of the output, that there is no memory, and `InvalidData` where the own bytes are no symbol's entry.
#[tactic(auto, unfolding(crate::specs::Show::show_text))]
pub fn show<W: Write>(
    alloc: Global,
    found: &Found<'_>,
    coloured: bool,
    out: &mut W,
) -> io::Result<()>
    ensures { OnOk result (Appends (W.contents out.old) (W.contents out.new) (show_text coloured found.now.at found.now.own found.now.symbol)) }
{
    let Ok(reasons) = why::explain(found.own) else {
        return Err(io::Error::from(ErrorKind::InvalidData));
    };
    let facts = Facts {
        at: found.at,
        symbol: &found.symbol,
        reasons: &reasons,
    };
    let sections = sections(alloc, found.own, &found.symbol)?;
    let picture = Picture {
        length: found.own.len(),
        sections: sections.as_slice(),
        coloured,
    };
    write!(out, "{facts}\n{picture}")
}
