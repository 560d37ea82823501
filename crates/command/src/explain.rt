//! `why`: why the sections of one symbol are there or not.

use host::failure::Failure;
use lookup::named;
use report::Upload;
use std::alloc::Global;
use std::io::Write;
use values::OrNone;
use wording::{Bytes, InWords};

/// A sentence for each section of the first symbol of a name.
pub fn explain<W: Write>(
    alloc: Global,
    upload: &Upload<'_>,
    name: &str,
    out: &mut W,
) -> Result<(), Failure> {
    let found = named(alloc, upload, name)?;
    let begin = found.at.min(upload.bytes.len());
    let from = &upload.bytes[begin..];
    let own = &from[..found.entry.length.min(from.len())];
    let reasons = match why::explain(own) {
        Ok(reasons) => reasons,
        Err(why) => return Err(Failure::of_upload(alloc, upload, &InWords(&why))),
    };
    let (at, length) = (found.at, Bytes(own.len()));
    let name = OrNone(found.entry.name);
    writeln!(out, "{upload}")?;
    writeln!(out, "")?;
    writeln!(out, "{name} at {at}, {length}")?;
    why_report::write(own, &reasons, out)?;
    Ok(())
}
