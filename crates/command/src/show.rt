//! `show`: everything of one symbol, and a picture of its bytes.

use host::failure::Failure;
use lookup::named;
use report::Upload;
use std::alloc::Global;
use std::io::Write;

/// Whether colours are asked for is the caller's to say.
pub fn show<W: Write>(
    alloc: Global,
    upload: &Upload<'_>,
    name: &str,
    coloured: bool,
    out: &mut W,
) -> Result<(), Failure> {
    let found = named(alloc, upload, name)?;
    let begin = found.at.min(upload.bytes.len());
    let length = found.entry.length.min(upload.bytes.len() - begin);
    writeln!(out, "{upload}")?;
    writeln!(out, "")?;
    let entry = picture::Found {
        at: found.at,
        own: &upload.bytes[begin..begin + length],
        symbol: found.entry,
    };
    picture::show(alloc, &entry, coloured, out)?;
    Ok(())
}
