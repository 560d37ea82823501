//! `compare`: which entries of two uploads differ.

use host::failure::Failure;
use report::Upload;
use std::alloc::Global;
use std::io::Write;

/// Whether the two are alike.
pub fn compare<W: Write>(
    alloc: Global,
    upload: &Upload<'_>,
    other: &Upload<'_>,
    json: bool,
    out: &mut W,
) -> Result<bool, Failure> {
    Ok(comparison::compare(alloc, upload, other, json, out)?)
}
