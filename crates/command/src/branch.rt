//! `branch`: the symbols whose names begin with a text; and `list --sorted`, all in the order of their names.

use branching::NoOrder;
use host::failure::Failure;
use host::source::windows_1252;
use report::{Tally, Upload};
use std::alloc::Global;
use std::fmt;
use std::fmt::{Display, Formatter};
use std::io::Write;
use wording::InWords;
use wording::strings::Shown;

fn unordered(alloc: Global, upload: &Upload<'_>, why: &NoOrder) -> Failure {
    match why {
        NoOrder::Refused(why) => Failure::of_upload(alloc, upload, &InWords(why)),
        NoOrder::Memory => Failure::Memory,
    }
}

fn write<W: Write>(
    upload: &Upload<'_>,
    starts: &[u32],
    as_json: bool,
    out: &mut W,
) -> Result<Tally, Failure> {
    if as_json {
        return Ok(branching::write_lines(upload, starts, out)?);
    }
    Ok(branching::write_table(upload, starts, out)?)
}

/// A table of the symbols whose names begin with a text, or a line of JSON for each, in the order of their names.
pub fn branch<W: Write>(
    alloc: Global,
    upload: &Upload<'_>,
    text: &str,
    as_json: bool,
    out: &mut W,
) -> Result<(), Failure> {
    let asked = windows_1252(alloc, text)?;
    let asked = asked.as_slice();
    match branching::branch(alloc, upload, asked) {
        Ok(starts) => write_some(alloc, upload, asked, starts.as_slice(), as_json, out),
        Err(why) => Err(unordered(alloc, upload, &why)),
    }
}

// That no name begins with a text.
#[derive(Clone, Copy)]
struct NoBranch<'a>(&'a [u8]);

impl Display for NoBranch<'_> {
    fn fmt<W: fmt::Write>(&self, f: &mut Formatter<W>) -> fmt::Result {
        let asked = Shown(self.0);
        write!(
            f,
            "refusal 13, name not found: no symbol's name begins with {asked}"
        )
    }
}

// Those whose names begin with what was asked, if there are any.
fn write_some<W: Write>(
    alloc: Global,
    upload: &Upload<'_>,
    asked: &[u8],
    starts: &[u32],
    as_json: bool,
    out: &mut W,
) -> Result<(), Failure> {
    if starts.is_empty() {
        return Err(Failure::of_upload(alloc, upload, &NoBranch(asked)));
    }
    write(upload, starts, as_json, out)?;
    Ok(())
}

/// All entries: the accepted ones in the order of their names, and the refused ones behind them in the upload's.
pub fn sorted<W: Write>(
    alloc: Global,
    upload: &Upload<'_>,
    as_json: bool,
    out: &mut W,
) -> Result<Tally, Failure> {
    match branching::sorted(alloc, upload) {
        Ok(starts) => write(upload, starts.as_slice(), as_json, out),
        Err(why) => Err(unordered(alloc, upload, &why)),
    }
}
