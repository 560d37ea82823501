//! `plain`: whether an upload is in plain form.

use host::failure::Failure;
use report::Upload;
use std::alloc::Global;
use std::io::Write;

/// Says that each entry is what would be written of it, or which is not, and what departs; whether each is.
pub fn plain<W: Write>(alloc: Global, upload: &Upload<'_>, out: &mut W) -> Result<bool, Failure> {
    writeln!(out, "{upload}")?;
    match plain_report::first_departure(alloc, upload.bytes)? {
        None => {
            writeln!(out, "in plain form")?;
            Ok(true)
        }
        Some(departure) => {
            writeln!(out, "{departure}")?;
            Ok(false)
        }
    }
}
