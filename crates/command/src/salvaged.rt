//! `salvage`: the accepted entries as a new upload.

use host::failure::Failure;
use host::written;
use report::Upload;
use salvage_report::Dropped;
use std::io::Write;

/// Refuses a path where something stands, before anything is read.
pub fn is_free(rt: &HostRuntime, to: &str, file: &str) -> Result<(), Failure> {
    written::check_free(rt, "salvage", to, file)
}

/// Writes what is kept, and prints a table of what was dropped. The file is there before anything is said of it. What was
/// dropped is the status, also where the reader of the table has gone.
pub fn salvage<W: Write>(
    rt: &HostRuntime,
    upload: &Upload<'_>,
    to: &str,
    out: &mut W,
) -> Result<(), Failure> {
    let alloc = rt.alloc();
    let salvaged = salvage_report::salvage(alloc, upload)?;
    written::write(rt, to, salvaged.kept.as_slice())?;
    if let Err(why) = salvage_report::write(upload, &salvaged, to, out) {
        let failure = Failure::Output(why);
        if !failure.is_unread() {
            return Err(failure);
        }
    }
    if salvaged.tally.refused == 0 {
        return Ok(());
    }
    let dropped = Dropped::of(upload, &salvaged);
    Err(Failure::Dropped(format!(in alloc; "{upload}: {dropped}; the rest is in {to}")?))
}
